//! `forms`: small programs in the forms that users write. None has a proof file. Prints what
//! each of them makes.
#![tactic(auto)]

mod helpers;
mod invoice;
mod languages;
mod lent;
mod logger;
mod pages;
mod profile;
mod totals;

use interpolator::Error;
use std::alloc::Global;
use std::io;
use std::process::ExitCode;

/// What the examples make, one after the other.
fn all(alloc: Global) -> Result<String, Error> {
    let mut page = String::new(alloc);
    for text in [
        invoice::shown(alloc)?,
        totals::shown(alloc)?,
        languages::shown(alloc)?,
        lent::shown(alloc)?,
        helpers::shown(alloc)?,
        pages::shown(alloc)?,
        logger::shown(alloc)?,
        profile::shown(alloc)?,
    ] {
        page.push_str(text.as_str())?;
        page.push('\n')?;
    }
    Ok(page)
}

/// The status of a run that was to end with this one: 3 if what it wrote was refused.
fn ended(written: io::Result<()>, status: u8) -> ExitCode {
    match written {
        Ok(()) => ExitCode::from(status),
        Err(_) => ExitCode::from(3),
    }
}

fn main(rt: HostRuntime) -> ExitCode {
    match all(rt.alloc()) {
        Ok(page) => ended(print!(rt; "{page}"), 0),
        Err(error) => ended(eprintln!(rt; "{error}"), 1),
    }
}
