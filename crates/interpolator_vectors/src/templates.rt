//! Rows about what is known of a format before it is written.

use crate::arguments::Placed;
use crate::cells::Cell;
use crate::files::Facts;
use crate::formats::fault_of;
use crate::names::PIECE_KINDS;
use crate::report::Report;
use crate::trouble::{Read, known};
use crate::words::Words;
use interpolator::{Argument, ContextMap, Error, Interpolate, Piece, PieceKind, Template, check};
use std::alloc::{AllocError, Global};

/// The fault that a row states under this key, if it has the key: `ok` is none.
fn stated(facts: &mut Facts<'_>, key: &str) -> Read<Option<Option<Error>>> {
    let Some(mut words) = facts.next(key) else {
        return Ok(None);
    };
    if words.takes("ok") {
        words.done()?;
        return Ok(Some(None));
    }
    Ok(Some(fault_of(Some(words))?))
}

/// `check` and `sample`: the first fault, and `faults`: how many there are.
fn run_faults(
    report: &mut Report<'_>,
    context: &ContextMap<'_, Cell>,
    template: &Template,
    facts: &mut Facts<'_>,
) -> Read<()> {
    if let Some(wanted) = stated(facts, "check")? {
        report.compare("Template::check", &wanted, &template.check().err());
        let answer = check(report.alloc, template.text());
        report.compare("check", &wanted, &answer.err());
    }
    if let Some(wanted) = stated(facts, "sample")? {
        let answer = context.check_template(report.alloc, template);
        report.compare("check_template", &wanted, &answer.err());
    }
    if let Some(wanted) = facts.number("faults")? {
        let came = known(context.template_faults(report.alloc, template))?;
        report.compare("template_faults", &wanted, &came.len());
    }
    Ok(())
}

/// The names and places here, to the end of the line.
fn places_of(alloc: Global, mut words: Words<'_>) -> Read<Vec<Placed>> {
    let mut places = Vec::new(alloc);
    for _ in 0..words.len() {
        if words.is_done() {
            break;
        }
        let text = words.text()?;
        let place = words.number()?;
        places.push(Placed { text, place })?;
    }
    Ok(places)
}

/// The name of each argument, and where it begins.
fn argument_places(alloc: Global, arguments: &[Argument<'_>]) -> Result<Vec<Placed>, AllocError> {
    let mut places = Vec::new(alloc);
    for argument in arguments {
        places.push(Placed::new(alloc, argument.name, argument.name_place)?)?;
    }
    Ok(places)
}

/// `names`, `arguments`, `widest` and `depth`.
fn run_names(report: &mut Report<'_>, template: &Template, facts: &mut Facts<'_>) -> Read<()> {
    let alloc = report.alloc;
    if let Some(mut words) = facts.next("names") {
        let wanted = words.texts()?;
        let came = known(template.names(alloc))?;
        report.compare("Template::names", &wanted, &came);
    }
    if let Some(words) = facts.next("arguments") {
        let wanted = places_of(alloc, words)?;
        let arguments = known(template.arguments(alloc))?;
        let came = argument_places(alloc, &arguments)?;
        report.compare("Template::arguments", &wanted, &came);
    }
    if let Some(wanted) = facts.number("widest")? {
        report.compare("Template::widest", &wanted, &template.widest());
    }
    if let Some(wanted) = facts.number("depth")? {
        report.compare("Template::depth", &wanted, &template.depth());
    }
    Ok(())
}

/// A node of a format's tree: how deep it is, what it is and from where to where it goes, and how
/// many nodes its groups have, if it has them.
#[derive(Clone, Copy, Debug, PartialEq)]
struct Node {
    depth: usize,
    kind: PieceKind,
    place: usize,
    end: usize,
    item: Option<usize>,
    join: Option<usize>,
}

/// How many levels of pieces are listed.
const LEVELS: usize = 8;

/// How many pieces a group has, if there is a group.
fn count(pieces: &Option<Vec<Piece>>) -> Option<usize> {
    match pieces {
        Some(pieces) => Some(pieces.len()),
        None => None,
    }
}

/// Appends the pieces of a level, each before those of its item format and of its join.
fn push_pieces(nodes: &mut Vec<Node>, pieces: &[Piece], depth: usize) -> Result<(), AllocError> {
    if depth >= LEVELS {
        return Ok(());
    }
    for piece in pieces {
        nodes.push(Node {
            depth,
            kind: piece.kind,
            place: piece.place,
            end: piece.end,
            item: count(&piece.item),
            join: count(&piece.join),
        })?;
        if let Some(pieces) = &piece.item {
            push_pieces(nodes, pieces, depth + 1)?;
        }
        if let Some(pieces) = &piece.join {
            push_pieces(nodes, pieces, depth + 1)?;
        }
    }
    Ok(())
}

/// The node that a line states.
fn node_of(mut words: Words<'_>) -> Read<Node> {
    let node = Node {
        depth: words.number()?,
        kind: words.wanted(&PIECE_KINDS)?,
        place: words.number()?,
        end: words.number()?,
        item: words.number_after("item")?,
        join: words.number_after("join")?,
    };
    words.done()?;
    Ok(node)
}

/// `piece`: the nodes of the format's tree; `pieces none` if there are none.
fn run_pieces(report: &mut Report<'_>, template: &Template, facts: &mut Facts<'_>) -> Read<()> {
    let mut wanted = Vec::new(report.alloc);
    let mut is_stated = false;
    if let Some(mut words) = facts.next("pieces") {
        is_stated = words.takes("none");
        words.done()?;
    }
    for _ in 0..facts.len() {
        let Some(words) = facts.next("piece") else {
            break;
        };
        wanted.push(node_of(words)?)?;
    }
    if is_stated || !wanted.is_empty() {
        let mut came = Vec::new(report.alloc);
        push_pieces(&mut came, template.pieces(), 0)?;
        report.compare("Template::pieces", &wanted, &came);
    }
    Ok(())
}

/// Checks everything that a row says of its format before it is written.
pub fn run_known(
    report: &mut Report<'_>,
    context: &ContextMap<'_, Cell>,
    template: &Template,
    facts: &mut Facts<'_>,
) -> Read<()> {
    run_faults(report, context, template, facts)?;
    run_names(report, template, facts)?;
    run_pieces(report, template, facts)
}
