//! What a call returns.
ghost use Rattle.std.specs.Prelude.{◌≡◌, ◌<◌, length};
ghost use Rattle.interpolator_border.specs.Answers.{FillsFront, Reported, ReportedBy, ReportedCode};
ghost use Rattle.interpolator_border.specs.Answers.{ReportedFailure, bare_answer, failure_code};
ghost use Rattle.interpolator_border.specs.Answers.{fault_answer, full_answer, full_sentence};
ghost use Rattle.interpolator_border.specs.Answers.{text_answer};
ghost use Rattle.interpolator_syntax.specs.Faults.{answer_of};

use crate::fault::{NO_MEMORY, code_of, fault_numbers};
use interpolator::Error;
use std::alloc::Global;

/// The code of a format that is not UTF-8.
pub(crate) const NOT_UTF8: u32 = 7;

/// The code of lists that do not lie as they should.
const LISTS: u32 = 8;

/// The code of a room that is too small.
const FULL: u32 = 9;

/// The code of a table with another number of cells.
const TABLE: u32 = 10;

/// What a call returns.
#[repr(C)]
#[derive(Clone, Copy)]
pub struct Answer {
    /// 0 if all went well, or what is wrong.
    pub code: u32,
    /// The number of a missing trait, or how a format is broken; else 0.
    pub detail: u32,
    /// The place of a fault, in bytes of the format.
    pub place: usize,
    /// How many bytes the text has, or were written before a fault; of `arguments` and `faults`,
    /// how many there are.
    pub length: usize,
    /// How many bytes the sentence has that says what is wrong.
    pub message: usize,
    /// Of `rows`: how many rows come before the one that has the fault; else 0.
    pub row: usize,
}

/// Why a call has no text.
#[derive(Drop)]
pub(crate) enum Failure {
    /// The format is not UTF-8.
    NotUtf8,
    /// A list does not lie as it should.
    Lists,
    /// There are not as many cells as there should be.
    Table,
    /// A fault of the format, or memory was refused.
    Fault(Error),
}

/// Copies a text to the front of the room, if it fits.
pub(crate) fn put(room: &mut [u8], text: &[u8])
    ensures { Reported text.now room.old room.new }
{
    if text.len() <= room.len() {
        let (front, _) = room.split_at_mut(text.len());
        front.copy_from_slice(text);
    }
}

/// Copies values into the places, as many as there are of both.
pub(crate) fn put_front<T: Copy>(reported: &[T], places: &mut [T])
    ensures { FillsFront reported.now places.old places.new }
{
    let count = reported.len().min(places.len());
    let (front, _) = places.split_at_mut(count);
    front.copy_from_slice(&reported[..count]);
}

/// Success, with a text of `length` bytes.
pub(crate) fn well(length: usize) -> Answer
    ensures { result ≡ text_answer length }
{
    Answer {
        code: 0,
        detail: 0,
        place: 0,
        length,
        message: 0,
        row: 0,
    }
}

/// A code alone.
pub(crate) fn bare(code: u32) -> Answer
    ensures { result ≡ bare_answer code }
{
    Answer { code, ..well(0) }
}

/// A code, with its sentence.
pub(crate) fn coded(code: u32, sentence: &str, room: &mut [u8]) -> Answer
    ensures { ReportedCode code sentence.now room.old room.new result }
{
    put(room, sentence.as_bytes());
    Answer {
        code,
        message: sentence.len(),
        ..well(0)
    }
}

/// The answer for a fault after `length` bytes, whose sentence has `message` bytes.
fn fault_answer(error: &Error, length: usize, message: usize) -> Answer
    ensures reported { result
        ≡ record (fault_answer (answer_of error.now) length) { message = message } }
    ensures some { 0 < result.code }
{
    let fault = fault_numbers(error);
    Answer {
        code: fault.code,
        detail: fault.detail,
        place: fault.place,
        length,
        message,
        row: 0,
    }
}

/// A fault, with the bytes before it and its sentence.
pub(crate) fn reported_fault(alloc: Global, error: &Error, length: usize, room: &mut [u8]) -> Answer
    ensures fault { ReportedBy (answer_of error.now) length room.old room.new result }
    ensures some { 0 < result.code }
{
    match format!(in alloc; "{error}") {
        Ok(sentence) => {
            put(room, sentence.as_str().as_bytes());
            fault_answer(error, length, sentence.len())
        }
        Err(_) => Answer {
            length,
            ..coded(NO_MEMORY, "out of memory", room)
        },
    }
}

/// Why a call has no text, with its sentence. It is not inlined, so that a call without a failure does
/// not pay for it.
#[cold]
#[inline(never)]
pub(crate) fn reported_failure(alloc: Global, failure: &Failure, room: &mut [u8]) -> Answer
    ensures failure { ReportedFailure failure.now room.old room.new result }
    ensures some { 0 < result.code }
{
    match failure {
        Failure::NotUtf8 => coded(NOT_UTF8, "not UTF-8", room),
        Failure::Lists => coded(LISTS, "a list lies where it may not", room),
        Failure::Table => coded(TABLE, "not as many cells as columns times rows", room),
        Failure::Fault(error) => reported_fault(alloc, error, 0, room),
    }
}

/// The code of why there is no text.
pub(crate) fn failure_code(failure: &Failure) -> u32
    ensures { result ≡ failure_code failure.now }
{
    match failure {
        Failure::NotUtf8 => NOT_UTF8,
        Failure::Lists => LISTS,
        Failure::Table => TABLE,
        Failure::Fault(error) => code_of(error),
    }
}

/// The room is too small from a place of the format on, after `length` bytes of the text.
pub(crate) fn reported_full(place: usize, length: usize, sentence: &mut [u8]) -> Answer
    ensures answer { result ≡ full_answer place length }
    ensures room { Reported full_sentence sentence.old sentence.new }
{
    let reported = coded(FULL, "the room is too small", sentence);
    Answer {
        place,
        length,
        ..reported
    }
}

/// A fault, with this text for its sentence.
pub(crate) fn pictured(error: &Error, picture: &str, room: &mut [u8]) -> Answer
    ensures room { Reported picture.now room.old room.new }
    ensures answer { result
        ≡ record (fault_answer (answer_of error.now) 0) { message = length picture.now } }
{
    put(room, picture.as_bytes());
    fault_answer(error, 0, picture.len())
}
