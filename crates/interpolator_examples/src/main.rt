//! `interpolator_examples`: the forms that users write, as in docs/USING.md and the examples of doc
//! comments. Prints the output of each.
#![tactic(auto)]

mod cells;
mod levels;
mod lists_of_users;
mod page;
mod users;

use interpolator::Error;
use page::Page;
use std::alloc::Global;
use std::io;
use std::process::ExitCode;

/// The output of all examples.
fn all(alloc: Global) -> Result<String, Error> {
    let mut page = Page::new(alloc);
    lists_of_users::show(&mut page);
    users::show(&mut page)?;
    if page.wants_memory {
        return Err(Error::NoMemory);
    }
    Ok(page.text)
}

/// Prints the examples, and returns whether all of them were printed.
fn print(rt: &HostRuntime) -> io::Result<bool> {
    match all(rt.alloc()) {
        Ok(text) => {
            rt.print(text.as_str())?;
            Ok(true)
        }
        Err(error) => {
            println!(rt; "{error}")?;
            Ok(false)
        }
    }
}

fn main(rt: HostRuntime) -> ExitCode {
    match print(&rt) {
        Ok(true) => ExitCode::SUCCESS,
        _ => ExitCode::FAILURE,
    }
}
