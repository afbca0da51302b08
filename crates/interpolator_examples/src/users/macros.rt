//! Formats with named values in one call, by the macros.

use crate::page::Page;
use interpolator::{
    Error, Interpolate, TextBuffer, View, context, iformat, items_of, iwrite, iwriteln, list,
};
use std::alloc::Global;

/// A receipt, line by line. The format is a text that is known only at run time.
fn receipt(alloc: Global, layout: &str, rows: &[(&str, u32)]) -> Result<String, Error> {
    let mut out = TextBuffer::new(alloc);
    let mut sum = 0u32;
    for (item, n) in rows {
        iwriteln!(in alloc; &mut out, layout, item = *item, n = *n)?;
        sum = sum.saturating_add(*n);
    }
    iwrite!(in alloc; &mut out, "{sum:>11}", sum)?;
    Ok(out.into_string())
}

/// A map of names and views, which is kept, and one slot more of a name that it has.
fn mapped(alloc: Global, name: &str, apples: u32, format: &str) -> Result<String, Error> {
    let cells = list![apples, name];
    let items = items_of(alloc, &cells)?;
    let (name, apples) = (View::from(name), View::from(apples));
    let map = context!(in alloc; name, n:integer = apples, name:? = apples, l:i = &items)?;
    map.format(alloc, format)
}

pub fn show(page: &mut Page) {
    let alloc = page.alloc;
    let pair = iformat!(in alloc; "{a}, {b:?}", a = 10u8, b:? = "test");
    page.put_made("iformat", pair);
    page.put_made("iformat", iformat!(in alloc; "no names"));
    page.put_made("iformat", iformat!(in alloc; "{a}{b}", a = 'x'));
    let format = "{name} has {n:>3}, {name:?}: {l:i({})(, )}";
    page.put_made("context", mapped(alloc, "Ann", 12, format));
    page.put_made("context", mapped(alloc, "Ann", 12, "{name:x}"));
    let rows = [("bread", 7), ("crème", 1234)];
    page.put_made("receipt", receipt(alloc, "{item:<6}{n:>5}", &rows));
    page.put_made("receipt", receipt(alloc, "{item}{n", &rows));
}
