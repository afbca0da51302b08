//! Rows of views that are rendered, and of texts that are padded.

use crate::cells::Cell;
use crate::contexts::take_cell;
use crate::files::Facts;
use crate::limited::Limited;
use crate::report::{Part, Report, Run};
use crate::trouble::Read;
use crate::ways::{Room, first};
use interpolator::{RenderFault, Spec, TextBuffer, TextWrite, Trait, Value, pad, render};
use std::alloc::AllocError;

/// What is written: a view under a trait, or a text that is padded.
#[derive(Drop)]
enum Subject {
    View(Cell, Trait),
    Text(String),
}

/// What is returned: the fault, and how many bytes it says were taken.
type Answer = (Option<RenderFault>, Option<usize>);

/// A row about a view or a padded text.
#[derive(Drop)]
struct Rendering {
    subject: Subject,
    spec: Spec,
    text: String,
    fault: Option<RenderFault>,
}

/// What is written, if the row is about a view or a padded text.
fn subject_of(facts: &mut Facts<'_>) -> Read<Option<Subject>> {
    if let Some(text) = facts.text("pad")? {
        return Ok(Some(Subject::Text(text)));
    }
    let Some(mut words) = facts.next("view") else {
        return Ok(None);
    };
    let cell = take_cell(&mut words)?;
    words.done()?;
    Ok(Some(Subject::View(cell, facts.the_trait()?)))
}

const FAULTS: [(&str, RenderFault); 3] = [
    ("NotImplemented", RenderFault::NotImplemented),
    ("Failed", RenderFault::Failed),
    ("Refused", RenderFault::Refused),
];

/// The text of a row, which is empty if the view has none.
fn text_of(facts: &mut Facts<'_>, fault: Option<RenderFault>) -> Read<String> {
    match facts.text("text")? {
        Some(text) => Ok(text),
        None if matches!(fault, None | Some(RenderFault::Refused)) => {
            Err(facts.trouble("a `text` is wanted"))
        }
        None => Ok(String::new(facts.alloc)),
    }
}

/// Checks what was written with what was wanted.
fn check(
    report: &mut Report<'_>,
    room: Room,
    wanted: (&str, Option<RenderFault>),
    text: &str,
    answer: Answer,
) {
    let (fault, taken) = answer;
    let holds = text == wanted.0 && fault == wanted.1 && taken.unwrap_or(text.len()) == text.len();
    let run = Run {
        way: "render or pad",
        part: Part::To(room),
    };
    report.check(run, holds, &wanted, &(text, answer));
}

impl Rendering {
    /// Writes the row's view or text.
    fn write<W: TextWrite>(&self, out: &mut W) -> Answer {
        match &self.subject {
            Subject::View(cell, t) => {
                let view = cell.view(*t, &self.spec);
                (render(out, view, *t, &self.spec).err(), None)
            }
            Subject::Text(text) => match pad(out, text.as_str(), &self.spec) {
                Ok(()) => (None, None),
                Err(refusal) => (Some(RenderFault::Refused), Some(refusal.taken)),
            },
        }
    }

    /// Checks what comes with a writer that takes `room` characters.
    fn run_in_room(
        &self,
        report: &mut Report<'_>,
        room: usize,
        wanted: (&str, Option<RenderFault>),
    ) -> Result<(), AllocError> {
        let mut out = Limited::new(report.alloc, room)?;
        let answer = self.write(&mut out);
        check(report, Room::Characters(room), wanted, out.as_str(), answer);
        Ok(())
    }

    /// Checks that a writer that takes everything gets the row's text, and writers of 0, 1, 2 and
    /// so on characters get its beginnings.
    fn run(&self, report: &mut Report<'_>) -> Result<(), AllocError> {
        let text = self.text.as_str();
        let mut out = TextBuffer::new(report.alloc);
        let answer = self.write(&mut out);
        check(report, Room::All, (text, self.fault), out.as_str(), answer);
        let all = text.chars().count();
        for count in 0..all {
            let beginning = first(text, count);
            self.run_in_room(report, count, (beginning, Some(RenderFault::Refused)))?;
        }
        self.run_in_room(report, all, (text, self.fault))
    }
}

/// Runs the row if it is about a view or a padded text; returns whether it is.
pub fn run_rendering(report: &mut Report<'_>, facts: &mut Facts<'_>) -> Read<bool> {
    let Some(subject) = subject_of(facts)? else {
        return Ok(false);
    };
    let spec = facts.spec()?;
    let fault = facts.one_of("fault", &FAULTS)?;
    let text = text_of(facts, fault)?;
    let rendering = Rendering {
        subject,
        spec,
        text,
        fault,
    };
    match facts.number("room")? {
        Some(room) => {
            let wanted = (rendering.text.as_str(), fault);
            rendering.run_in_room(report, room, wanted)?;
        }
        None => rendering.run(report)?,
    }
    Ok(true)
}
