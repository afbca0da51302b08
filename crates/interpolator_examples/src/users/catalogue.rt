//! Messages by key, whose templates are in a catalogue.

use crate::page::Page;
use interpolator::{ContextMap, Error, Formattable, Interpolate, Template, View};
use std::alloc::Global;
use std::collections::HashMap;

/// Templates under keys: each format is parsed once.
#[derive(Drop)]
struct Catalogue {
    templates: HashMap<String, Template>,
    alloc: Global,
}

impl Catalogue {
    fn new(alloc: Global) -> Catalogue {
        Catalogue {
            templates: HashMap::new(alloc),
            alloc,
        }
    }

    fn add(&mut self, key: &str, format: &str) -> Result<(), Error> {
        let key = String::from_str(self.alloc, key)?;
        let template = Template::parse(self.alloc, format)?;
        self.templates.insert(key, template)?;
        Ok(())
    }

    /// The message under a key, or else the key. The values are views, so that one type serves for
    /// all of them, and no lifetimes need to be written.
    fn message(&self, key: &str, values: &ContextMap<'_, View<'_>>) -> Result<String, Error> {
        match self.templates.get(key) {
            Some(template) => values.format_template(self.alloc, template),
            None => Ok(String::from_str(self.alloc, key)?),
        }
    }
}

/// What a program prints when it is done, with values of its own.
fn done(catalogue: &Catalogue, name: &str, words: u32) -> Result<String, Error> {
    let name = View::from(name);
    let words = View::from(words);
    let mut values = ContextMap::new(catalogue.alloc);
    values.put("name", Formattable::debug_display(&name))?;
    values.put("words", Formattable::integer(&words))?;
    catalogue.message("done", &values)
}

/// A message under a key that is not there, one that is there, and one whose name is missing.
pub fn show(page: &mut Page) -> Result<(), Error> {
    let mut catalogue = Catalogue::new(page.alloc);
    page.put_made("no key", done(&catalogue, "a", 1));
    catalogue.add("done", "{name:?}: {words} words")?;
    page.put_made("done", done(&catalogue, "Ann", 12));
    catalogue.add("done", "{nom}")?;
    page.put_made("no name", done(&catalogue, "Ann", 12));
    Ok(())
}
