//! What the head of a line declares: the names that its format is given, each with a kind.

ghost use Rattle.std.specs.Prelude.{◌≡◌, ◌++◌, ◌==◌, ◌<◌, IfOk, OnOk, map};
ghost use Rattle.std.specs.{Option.option_map, List.slice_split, Str.trim};
ghost use Rattle.catalogue.specs.Declarations.{as_list, if_whole, part_of, begin_of, after_part};
ghost use Rattle.catalogue.specs.Declarations.{broken_at, declared_by, declared_between};
ghost use Rattle.catalogue.specs.Declarations.{declared_after, declared_in, is_among, key_in};
ghost use Rattle.words.specs.{Declarations.as_declaration, Items.texts_of};

use plurals::is_name;
use std::alloc::{AllocError, Global};
use words::{Declaration, Kind, declaration_of};

/// What the head of a line declares.
#[derive(Drop)]
pub enum Heading<'a> {
    /// Nothing: it is a key alone.
    Plain,
    /// These, in their order.
    Declares(Vec<Declaration<'a>>),
    /// At this byte of the line something begins that is no declaration, or declares a name again.
    Broken(usize),
}

/// The declaration, if nothing is wrong with it.
fn if_whole(name: &str, kind: Kind, whole: bool) -> Option<Declaration<'_>>
    ensures { option_map as_declaration result ≡ if_whole whole (name.now, kind) }
{
    if whole {
        Some(Declaration { name, kind })
    } else {
        None
    }
}

/// The declaration between two commas, without the white space around it.
fn part_of(part: &str) -> Option<Declaration<'_>>
    ensures { option_map as_declaration result ≡ part_of part.now }
{
    let declared = declaration_of(part.trim());
    if_whole(declared.name, declared.kind, is_name(declared.name))
}

/// Where the part at a byte begins, after the white space in front of it.
pub fn begin_of(place: usize, part: &str) -> usize
    ensures { result ≡ begin_of place part.now }
{
    place.saturating_add(part.len().saturating_sub(part.trim_start().len()))
}

/// Where the part after this one is, with a comma between.
fn after_part(place: usize, part: &str) -> usize
    ensures { result ≡ after_part place part.now }
{
    place.saturating_add(part.len()).saturating_add(1)
}

/// Whether a name is declared.
fn is_among(found: &[Declaration<'_>], name: &str) -> bool
    ensures { result ≡ is_among (map as_declaration found.now) name.now }
{
    for one in found {
        if name == one.name {
            return true;
        }
    }
    false
}

/// Where the part at a byte begins, if it is broken: it is no declaration, or its name is declared
/// before it.
fn broken_at(place: usize, found: &[Declaration<'_>], part: &str) -> Option<usize>
    ensures { result ≡ broken_at place (map as_declaration found.now) part.now }
{
    let Some(declared) = part_of(part) else {
        return Some(begin_of(place, part));
    };
    if is_among(found, declared.name) {
        return Some(begin_of(place, part));
    }
    None
}

/// Adds a declaration, if there is one.
fn add_declaration<'a>(
    found: &mut Vec<Declaration<'a>>,
    one: Option<Declaration<'a>>,
) -> Result<(), AllocError>
    ensures { OnOk result (map as_declaration found.new.items
        ≡ map as_declaration found.old.items ++ as_list (option_map as_declaration one.entry)) }
{
    if let Some(one) = one {
        found.push(one)?;
    }
    Ok(())
}

/// The parts of a text, between its commas or the like.
fn parts_between(alloc: Global, text: &str, mark: char) -> Result<Vec<&str>, AllocError>
    requires ascii { mark < 128 }
    ensures { IfOk result (λ parts. texts_of parts.items ≡ slice_split (λ b. b == mark) text.now) }
{
    text.split(mark).collect(alloc)
}

/// The declarations between brackets, of which the first is at this byte of the line.
fn declared_between<'a>(
    alloc: Global,
    place: usize,
    inner: &'a str,
) -> Result<Heading<'a>, AllocError>
    ensures { IfOk result (λ found. declared_by found ≡ declared_between place inner.now) }
{
    let mut found = Vec::new(alloc);
    if inner.trim().is_empty() {
        return Ok(Heading::Declares(found));
    }
    let mut at = place;
    let parts = parts_between(alloc, inner, ',')?;
    for part in &parts {
        if let Some(place) = broken_at(at, found.as_slice(), part) {
            return Ok(Heading::Broken(place));
        }
        add_declaration(&mut found, part_of(part))?;
        at = after_part(at, part);
    }
    Ok(Heading::Declares(found))
}

/// What is declared after a `(` at this byte of the line: it ends at the next `)`, after which
/// there is only white space.
fn declared_after<'a>(
    alloc: Global,
    opened: usize,
    rest: &'a str,
) -> Result<Heading<'a>, AllocError>
    ensures { IfOk result (λ found. declared_by found ≡ declared_after opened rest.now) }
{
    let Some((inner, after)) = rest.split_once(')') else {
        return Ok(Heading::Broken(opened));
    };
    if !after.trim().is_empty() {
        return Ok(Heading::Broken(opened));
    }
    declared_between(alloc, opened.saturating_add(1), inner)
}

/// The key in a line's head, before its first `(`.
pub fn key_in(head: &str) -> &str
    ensures { result.now ≡ key_in head.now }
{
    match head.split_once('(') {
        Some((key, _)) => key.trim(),
        None => head.trim(),
    }
}

/// The key of a line's head, and what it declares.
///
/// `bill(name, count:, price:., items[])` declares a text `name`, a whole number `count`, a decimal
/// `price` and a list of texts `items`. Each name is declared once, and has no white space. After
/// the `)` there is nothing but white space.
pub fn heading_of<'a>(alloc: Global, head: &'a str) -> Result<(&'a str, Heading<'a>), AllocError>
    ensures key { IfOk result (λ found. found.0.now ≡ key_in head.now) }
    ensures declared { IfOk result (λ found. declared_by found.1 ≡ declared_in head.now) }
{
    let Some((key, rest)) = head.split_once('(') else {
        return Ok((head.trim(), Heading::Plain));
    };
    let heading = declared_after(alloc, key.len(), rest)?;
    Ok((key.trim(), heading))
}
