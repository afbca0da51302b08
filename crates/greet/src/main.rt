//! Writes the format in `greeting.txt` with a name and a number, or shows its fault.
#![tactic(auto)]

use interpolator::{Interpolate, explain, values};
use std::{fs, io};

fn main(rt: HostRuntime) -> io::Result<()> {
    let alloc = rt.alloc();
    let text = fs::read_to_string(&rt, "greeting.txt")?;
    let row = values!(name = "Ann", apples:integer = 3u32);
    match row.format(alloc, text.as_str()) {
        Ok(greeting) => print!(rt; "{greeting}"),
        Err(error) => {
            let picture = explain(alloc, "greeting.txt", text.as_str(), &error)?;
            eprintln!(rt; "{picture}")
        }
    }
}
