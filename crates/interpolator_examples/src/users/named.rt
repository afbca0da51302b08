//! Named values in one expression, by `values!`.

use crate::page::Page;
use interpolator::{Error, Interpolate, Template, TextBuffer, Values, items_of, list, values};
use std::alloc::Global;

/// Values of two kinds, under the names of their variables.
fn apples(alloc: Global, name: &str, apples: i32) -> Result<String, Error> {
    values!(name:?, n = apples).format(alloc, "{name:?} has {n} apples")
}

/// Texts of two parameters, a text of the function's own and a literal.
fn greeting(alloc: Global, name: &str, city: &str) -> Result<String, Error> {
    let sign = format!(in alloc; "{city}!")?;
    let row = values!(name, city, sign = &sign, mood = "well");
    row.format(alloc, "{name}, {city}, {sign} {mood}")
}

/// Texts of six parameters, each of which may have a lifetime of its own.
fn address(
    alloc: Global,
    name: &str,
    number: &str,
    street: &str,
    code: &str,
    town: &str,
    country: &str,
) -> Result<String, Error> {
    values!(name, number, street, code, town, country).format(
        alloc,
        "{name}, {number} {street}, {code} {town}, {country}",
    )
}

/// A list beside other values, of two parameters.
fn order(alloc: Global, payer: &str, thing: &str, price: u32) -> Result<String, Error> {
    let cells = list![thing, payer, price];
    let items = items_of(alloc, &cells)?;
    values!(payer, items:i = &items, both:iter = &items).format(
        alloc,
        "{payer}: {items:i({:?})( at )}, {both:i0..1}",
    )
}

/// A line for each record, by a template, after a check of the template with an example.
fn stock(alloc: Global, format: &str, rows: &[(&str, u32)]) -> Result<String, Error> {
    let template = Template::parse(alloc, format)?;
    values!(item = "bread", n:integer = 7u32).check_template(alloc, &template)?;
    let mut out = TextBuffer::new(alloc);
    for (item, n) in rows {
        let row = values!(item = *item, n:integer = *n);
        row.write_template_line_to(alloc, &mut out, &template)?;
    }
    Ok(out.into_string())
}

/// A row that a function makes.
fn person<'a>(name: &'a str, age: u8, city: &'a str) -> Values<'a> {
    values!(name, age, city)
}

/// A format with any context.
fn shout<C: Interpolate>(alloc: Global, context: &C) -> Result<String, Error> {
    context.format(alloc, "{name}, {age}, of {city}!")
}

/// Every kind of value but decimals, and every way to name a slot but that of lists, in as many
/// names as a row can have.
#[rattlefmt::skip]
fn sixteen(alloc: Global) -> Result<String, Error> {
    let (t, s, n) = ("é", 'd', 255u8);
    values!(
        t, s: :?, n:x:X,
        a:debug = true, b:display = -11i8, c:debug_display = -12i16,
        d:lower_hex:upper_hex = 255u16, e:o:b = 255u32, f:octal:binary = 255u64,
        g:e:E = 255u128, h:lower_exp:upper_exp = 255usize, i:?:x = 5i64,
        j:integer = -13i32, k:float = -14i128, l = -15isize, m: = "m",
    )
    .format(
        alloc,
        "{t}|{s} {s:?}|{n:x} {n:#X}|{a:?}|{b:>5}|{c} {c:?}|{d:#x} {d:X}|{e:o} {e:b}|{f:#o} {f:#b}\
         |{g:e} {g:E}|{h:.1e} {h:.1E}|{i:?} {i:x}|{j} {j:#x}|{k} {k:e}|{l}|{m}",
    )
}

/// Rows without the slot or the name that a format uses, one with two values under a name, and one
/// without names.
fn show_rows(page: &mut Page) {
    let alloc = page.alloc;
    let n = 255u8;
    let rows = [
        ("{n:x}", values!(n:float)),
        ("{n:?}", values!(n)),
        ("{m}", values!(n, t = "é")),
        ("{n}", values!(n, n = 7u8)),
        ("{{}}", values!()),
    ];
    for (format, row) in rows {
        page.put_made(format, row.format(alloc, format));
    }
}

pub fn show(page: &mut Page) {
    let alloc = page.alloc;
    page.put_made("named", apples(alloc, "Ann", -7));
    page.put_made("named", greeting(alloc, "Ann", "Oslo"));
    page.put_made(
        "named",
        address(alloc, "Ann", "7", "Storgata", "0155", "Oslo", "Norway"),
    );
    page.put_made("named", order(alloc, "Ann", "bread", 7));
    page.put_made(
        "named",
        stock(alloc, "{item:<6}|{n:>4x}", &[("tea", 255), ("crème", 7)]),
    );
    page.put_made("named", stock(alloc, "{item}{price}", &[]));
    page.put_made("named", shout(alloc, &person("Ann", 44, "Oslo")));
    page.put_made("sixteen", sixteen(alloc));
    show_rows(page);
}
