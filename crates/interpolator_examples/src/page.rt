//! The output of the examples, to be printed.

use interpolator::Error;
use std::alloc::Global;

/// The output of the examples, one after the other.
#[derive(Drop)]
pub struct Page {
    pub alloc: Global,
    pub text: String,
    /// Whether memory for it was refused.
    pub wants_memory: bool,
}

impl Page {
    pub fn new(alloc: Global) -> Page {
        Page {
            alloc,
            text: String::new(alloc),
            wants_memory: false,
        }
    }

    fn say(&mut self, text: &str) {
        if self.text.push_str(text).is_err() {
            self.wants_memory = true;
        }
    }

    /// Appends the output of the example of this name.
    pub fn put(&mut self, name: &str, text: &str) {
        self.say(name);
        self.say(": ");
        self.say(text);
        self.say("\n");
    }

    /// Appends the text that the example of this name returned, or its fault, as `Debug` shows it.
    pub fn put_made(&mut self, name: &str, made: Result<String, Error>) {
        match made {
            Ok(text) => self.put(name, text.as_str()),
            Err(error) => self.put_fault(name, &error),
        }
    }

    /// Appends the fault of the example of this name, as `Debug` shows it.
    pub fn put_fault(&mut self, name: &str, error: &Error) {
        match format!(in self.alloc; "{error:?}") {
            Ok(text) => self.put(name, text.as_str()),
            Err(_) => self.wants_memory = true,
        }
    }
}
