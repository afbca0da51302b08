//! The arguments of a format.
ghost use Rattle.std.specs.Prelude.{◌≡◌, ◌+◌, IfErr, IfOk, length, map, option_map};
ghost use Rattle.std.specs.Str.{chars};
ghost use Rattle.interpolator_render.specs.{Lengths.usize_count, Writers.byte_count};
ghost use Rattle.interpolator_syntax.specs.Faults.{answer_of, no_memory};
ghost use Rattle.interpolator_syntax.specs.{Arguments.argument_of, Groups.group_of};
ghost use Rattle.interpolator_border.specs.Arguments.{ArgumentAnswers, group_end, group_first};
ghost use Rattle.interpolator_border.specs.Arguments.{reported_argument, reported_arguments};
ghost use Rattle.interpolator_border.specs.Requests.{request_of};

use crate::answer::{Answer, NOT_UTF8, bare, put_front, well};
use crate::bytes::text_of;
use crate::fault::NO_MEMORY;
use crate::request::{Request, request_of};
use interpolator::{Argument as Parsed, Error, Group, Kind, Template, Trait};
use std::alloc::{AllocError, Global};

/// An argument of a format: what is in braces. Places count bytes of the format.
#[repr(C)]
#[derive(Clone, Copy)]
pub struct Argument {
    /// Where its name begins.
    pub name_first: usize,
    /// Where its name ends.
    pub name_end: usize,
    /// Its trait and its spec.
    pub request: Request,
    /// Of a list: where the format of an item begins; 0 if there is none.
    pub item_first: usize,
    /// Of a list: where the format of an item ends; 0 if there is none.
    pub item_end: usize,
    /// Of a list: where the format between two items begins; 0 if there is none.
    pub join_first: usize,
    /// Of a list: where the format between two items ends; 0 if there is none.
    pub join_end: usize,
}

/// The bytes of a text.
#[tactic(auto, using(interpolator_eval::proofs::FieldNameLemmas::name_bytes))]
fn byte_length(text: &str) -> usize
    ensures length { result ≡ length text.now }
    ensures bytes { result ≡ byte_count (chars text.now) }
{
    text.len()
}

/// Where a group begins.
fn group_first(group: Option<Group<'_>>) -> usize
    ensures { result ≡ group_first (option_map group_of group.entry) }
{
    match group {
        Some(group) => group.place,
        None => 0,
    }
}

/// Where a group ends.
fn group_end(group: Option<Group<'_>>) -> usize
    ensures { result ≡ group_end (option_map group_of group.entry) }
{
    match group {
        Some(group) => group.place + byte_length(group.text),
        None => 0,
    }
}

/// What a value asks for, in numbers.
fn reported_value(argument: &Parsed<'_>, slot: Trait) -> Argument
    ensures { result ≡ record {
      name_first = argument.now.name_place;
      name_end = usize_count (argument.now.name_place
          + byte_count (chars argument.now.name.now));
      request = request_of slot argument.now.spec;
      item_first = 0;
      item_end = 0;
      join_first = 0;
      join_end = 0;
    } }
{
    Argument {
        name_first: argument.name_place,
        name_end: argument
            .name_place
            .saturating_add(byte_length(argument.name)),
        request: request_of(slot, &argument.spec),
        item_first: 0,
        item_end: 0,
        join_first: 0,
        join_end: 0,
    }
}

/// An argument, in numbers.
fn reported_argument(argument: &Parsed<'_>) -> Argument
    ensures { result ≡ reported_argument (argument_of argument.now) }
{
    match argument.kind {
        Kind::Value(slot) => reported_value(argument, slot),
        Kind::List {
            range: _,
            item,
            join,
        } => Argument {
            item_first: group_first(item),
            item_end: group_end(item),
            join_first: group_first(join),
            join_end: group_end(join),
            ..reported_value(argument, Trait::Iter)
        },
    }
}

/// The arguments, in numbers.
fn reported_arguments(alloc: Global, arguments: &[Parsed<'_>]) -> Result<Vec<Argument>, AllocError>
    ensures { IfOk result (λ reported. reported.items
        ≡ map reported_argument (map argument_of arguments.now)) }
{
    let mut reported = Vec::with_capacity(alloc, arguments.len())?;
    for argument in arguments {
        reported.push(reported_argument(argument))?;
    }
    Ok(reported)
}

/// The arguments of a text, in numbers.
fn arguments_in(alloc: Global, text: &str) -> Result<Vec<Argument>, Error>
    ensures ok { IfOk result (λ reported. reported.items ≡ reported_arguments text.now) }
    ensures refused { IfErr result (λ error. answer_of error ≡ no_memory) }
{
    let template = Template::parse(alloc, text)?;
    let arguments = template.arguments(alloc)?;
    let reported = reported_arguments(alloc, &arguments)?;
    Ok(reported)
}

/// The arguments of a format in order, and after a list those of its groups. As many as fit are
/// copied to the front of `places`; `length` is how many there are.
pub fn arguments(alloc: Global, format: &[u8], places: &mut [Argument]) -> Answer
    ensures { ArgumentAnswers format.now places.old places.new result }
{
    let Some(text) = text_of(format) else {
        return bare(NOT_UTF8);
    };
    match arguments_in(alloc, text) {
        Ok(reported) => {
            put_front(&reported, places);
            well(reported.len())
        }
        Err(_) => bare(NO_MEMORY),
    }
}
