//! A struct that is a context and contains a list: functions like `format` need no more.
ghost use Rattle.std.specs.Prelude.{Some, None, if◌then◌else◌, codes, map};
ghost use Rattle.std.specs.Str.{bytes_eq, encode_utf8_all};
ghost use Rattle.interpolator.specs.Slots.{empty_slots, slots_of, with_debug_display, with_iter};

use crate::page::Page;
use interpolator::{Context, Error, Formattable, View, format, is_name, items_of};
use std::alloc::Global;

/// What is ordered, and who pays.
#[derive(Clone, Copy)]
struct Order<'a> {
    payer: View<'a>,
    items: &'a [Formattable<'a, View<'a>>],
}

impl<'a> Context for Order<'a> {
    type Object = View<'a>;

    ghost finds = { λ order name.
        if bytes_eq (encode_utf8_all name) (codes "payer")
        then Some (with_debug_display empty_slots order.payer)
        else if bytes_eq (encode_utf8_all name) (codes "items")
        then Some (with_iter empty_slots (map slots_of order.items.now))
        else None };

    fn get(&self, key: &str) -> Option<Formattable<'_, View<'a>>> {
        if is_name(key, "payer") {
            Some(Formattable::debug_display(&self.payer))
        } else if is_name(key, "items") {
            Some(Formattable::iter(self.items))
        } else {
            None
        }
    }
}

/// An order, written by a format.
fn ordered<'a>(
    alloc: Global,
    payer: &'a str,
    items: &'a [Formattable<'a, View<'a>>],
    text: &str,
) -> Result<String, Error> {
    let payer = View::Text(payer);
    format(alloc, text, &Order { payer, items })
}

/// The order of a payer and these things, written by a format.
fn reported(alloc: Global, payer: &str, things: &[View<'_>], text: &str) -> Result<String, Error> {
    let items = items_of(alloc, things)?;
    ordered(alloc, payer, &items, text)
}

/// What is ordered.
const THINGS: [View<'static>; 2] = [View::Text("bread"), View::Text("crème")];

/// An order, and one whose format uses a name that no field has.
pub fn show(page: &mut Page) {
    let alloc = page.alloc;
    for text in ["{payer} pays {items:i({:?})( and )}", "{items:i}{payee}"] {
        page.put_made("order", reported(alloc, "Ann", &THINGS, text));
    }
}
