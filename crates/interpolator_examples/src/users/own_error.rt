//! An error type of a program's own, to which `?` converts refused memory and faults of formats.

use crate::page::Page;
use interpolator::{Error, Formattable, Interpolate, Pairs, items_of};
use std::alloc::{AllocError, AllocFailed, Global};

/// Why there is no list.
#[derive(Debug, Drop)]
enum ListError {
    /// Memory was refused.
    NoMemory,
    /// The word at this position, from 0 on, is not a number.
    NoNumber(usize),
    /// The format has a fault.
    Format(Error),
}

impl From<Error> for ListError {
    fn from(error: Error) -> ListError {
        match error {
            Error::NoMemory => ListError::NoMemory,
            fault => ListError::Format(fault),
        }
    }
}

/// The error that `push` and `insert` return if memory is refused; it contains what they did not
/// take.
impl<T: Drop> From<AllocFailed<T>> for ListError {
    fn from(_refused: AllocFailed<T>) -> ListError {
        ListError::NoMemory
    }
}

/// The numbers in a text, written by a format.
fn listed(alloc: Global, text: &str, format: &str) -> Result<String, ListError> {
    let mut numbers = Vec::new(alloc);
    for word in text.split(' ') {
        match word.parse::<u64>() {
            Ok(number) => numbers.push(number)?,
            Err(_) => return Err(ListError::NoNumber(numbers.len())),
        }
    }
    let items = items_of(alloc, &numbers)?;
    let reported = Pairs(&[("numbers", Formattable::iter(&items))]).format(alloc, format)?;
    Ok(reported)
}

/// A list, or why there is none.
fn reported(alloc: Global, text: &str, format: &str) -> Result<String, AllocError> {
    match listed(alloc, text, format) {
        Ok(list) => Ok(list),
        Err(error) => format!(in alloc; "{error:?}"),
    }
}

/// A list, a word that is not a number, and a format that uses a missing name.
pub fn show(page: &mut Page) -> Result<(), Error> {
    let alloc = page.alloc;
    for (text, format) in [
        ("1 20 3", "{numbers:i({})( + )}"),
        ("1 two", "{numbers:i({})( + )}"),
        ("1 20", "{number:i}"),
    ] {
        let reported = reported(alloc, text, format)?;
        page.put("numbers", reported.as_str());
    }
    Ok(())
}
