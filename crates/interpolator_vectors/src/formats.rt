//! Rows of formats, of parts and of lines: every way has to write and return what the row says.

use crate::cells::Cell;
use crate::files::{Facts, Row};
use crate::report::{Part, Report, Run, whole};
use crate::trouble::{Read, known};
use crate::ways::{LINE_WAYS, MAKINGS, Outcome, PART_WAYS, Room, WAYS, Ways, came_by};
use crate::words::Words;
use interpolator::{ContextMap, Error, Template};

/// A row of a format, of parts or of a line.
#[derive(Drop)]
pub struct FormatRow<'a> {
    pub row: &'a Row,
    /// The format, or the parts.
    pub formats: Vec<String>,
    pub kind: Kind,
    pub room: Room,
    /// The words of the fault.
    fault: Option<Words<'a>>,
    /// What is written and returned, if the row says so.
    pub wanted: Option<Outcome>,
}

/// What a row writes.
#[derive(Clone, Copy, PartialEq)]
pub enum Kind {
    Format,
    Parts,
    Line,
}

impl Kind {
    /// The ways to write it.
    fn ways(self) -> Ways {
        match self {
            Kind::Format => &WAYS,
            Kind::Parts => &PART_WAYS,
            Kind::Line => &LINE_WAYS,
        }
    }
}

/// What the writer of a row takes.
fn room_of(facts: &mut Facts<'_>) -> Read<Room> {
    if let Some(count) = facts.number("room")? {
        return Ok(Room::Characters(count));
    }
    match facts.number("bytes")? {
        Some(count) => Ok(Room::Bytes(count)),
        None => Ok(Room::All),
    }
}

/// Appends the texts.
fn append(all: &mut Vec<String>, texts: &[String]) -> Read<()> {
    for text in texts {
        all.push(text.clone()?)?;
    }
    Ok(())
}

/// The parts of a row, as many times as it says.
fn parts_of(facts: &mut Facts<'_>, mut words: Words<'_>) -> Read<Vec<String>> {
    let texts = words.texts()?;
    let mut parts = Vec::new(facts.alloc);
    for _ in 0..facts.number("times")?.unwrap_or(1) {
        append(&mut parts, &texts)?;
    }
    Ok(parts)
}

/// The format of a row, or its parts; none if the row has neither.
fn formats_of(facts: &mut Facts<'_>) -> Read<Option<(Vec<String>, Kind)>> {
    if let Some(words) = facts.next("parts") {
        return Ok(Some((parts_of(facts, words)?, Kind::Parts)));
    }
    let Some(format) = facts.text("format")? else {
        return Ok(None);
    };
    let mut formats = Vec::new(facts.alloc);
    formats.push(format)?;
    let kind = if facts.mark("line")? {
        Kind::Line
    } else {
        Kind::Format
    };
    Ok(Some((formats, kind)))
}

/// The fault that these words say, if there are any.
pub fn fault_of(words: Option<Words<'_>>) -> Read<Option<Error>> {
    match words {
        Some(words) => Ok(Some(words.fault()?)),
        None => Ok(None),
    }
}

/// The outcome that a row states, with these words of its fault.
fn wanted_of(facts: &mut Facts<'_>, words: Option<Words<'_>>) -> Read<Option<Outcome>> {
    let text = facts.text("text")?;
    let fault = fault_of(words)?;
    match text {
        Some(text) => Ok(Some(Outcome { text, fault })),
        None if fault.is_some() => Err(facts.trouble("a `text` is wanted beside the fault")),
        None => Ok(None),
    }
}

impl<'a> FormatRow<'a> {
    /// The row, if it has a format, parts or a line.
    pub fn read(row: &'a Row, facts: &mut Facts<'a>) -> Read<Option<FormatRow<'a>>> {
        let Some((formats, kind)) = formats_of(facts)? else {
            return Ok(None);
        };
        let room = room_of(facts)?;
        let fault = facts.next("fault");
        let wanted = wanted_of(facts, fault)?;
        Ok(Some(FormatRow {
            row,
            formats,
            kind,
            room,
            fault,
            wanted,
        }))
    }

    /// The format, or the first of the parts.
    pub fn format(&self) -> &str {
        match self.formats.first() {
            Some(format) => format.as_str(),
            None => "",
        }
    }

    /// The fault, this many bytes further on.
    pub fn moved_fault(&self, bytes: usize) -> Read<Option<Error>> {
        match self.fault {
            Some(words) => fault_of(Some(words.moved(bytes))),
            None => Ok(None),
        }
    }
}

/// How parts are run: by which ways, with a writer that takes what, and as what of the row.
#[derive(Clone, Copy)]
pub struct Trial<'a> {
    pub ways: Ways,
    pub room: Room,
    pub part: Part<'a>,
}

/// A row as it is, by these ways, with a writer that takes this.
fn as_it_is(ways: Ways, room: Room) -> Trial<'static> {
    let part = Part::To(room);
    Trial { ways, room, part }
}

/// Runs the parts.
pub fn run_ways(
    report: &mut Report<'_>,
    context: &ContextMap<'_, Cell>,
    parts: &[&str],
    trial: Trial<'_>,
    wanted: &Outcome,
) {
    let Trial { ways, room, part } = trial;
    for (way, call) in ways {
        let came = came_by(report.alloc, *call, room, parts, context);
        report.check(Run { way, part }, came == *wanted, wanted, &came);
    }
}

/// Runs the format by each way to make a text.
pub fn run_makings(
    report: &mut Report<'_>,
    context: &ContextMap<'_, Cell>,
    format: &str,
    part: Part<'_>,
    wanted: &Outcome,
) {
    for (way, making) in MAKINGS {
        let made = making.make(report.alloc, format, context);
        let came = Outcome::made(report.alloc, made);
        report.check(Run { way, part }, wanted.is_made(&came), wanted, &came);
    }
}

/// Up to this many characters of a text, every size of a smaller writer is tried.
const SHORT: usize = 200;

/// How many sizes are tried for a longer text, at both ends.
const ENDS: usize = 4;

/// Whether a writer of `count` characters is tried, for a text of `all` characters.
pub fn is_tried(count: usize, all: usize) -> bool {
    all <= SHORT || count < ENDS || all.saturating_sub(count) <= ENDS
}

/// How many bytes the parts have.
fn bytes_of(parts: &[&str]) -> usize {
    let mut bytes = 0usize;
    for part in parts {
        bytes = bytes.saturating_add(part.len());
    }
    bytes
}

/// Runs the parts with a writer that takes a number of characters, fewer than the text has: it gets
/// that many of the row's text, and the fault is `Fmt` at a place within the parts.
fn run_refused(
    report: &mut Report<'_>,
    context: &ContextMap<'_, Cell>,
    parts: &[&str],
    trial: Trial<'_>,
    wanted: &Outcome,
) {
    let Trial { ways, room, part } = trial;
    let beginning = room.beginning(wanted.text.as_str());
    let end = bytes_of(parts);
    for (way, call) in ways {
        let came = came_by(report.alloc, *call, room, parts, context);
        let holds = came.is_refused(beginning, end);
        report.check(Run { way, part }, holds, wanted, &came);
    }
}

/// Runs the parts as they are: with the row's writer and, if that takes everything, with writers
/// that take 0, 1, 2 and so on characters, up to those of the text.
fn run_by(
    report: &mut Report<'_>,
    context: &ContextMap<'_, Cell>,
    parts: &[&str],
    by: Trial<'_>,
    wanted: &Outcome,
) {
    run_ways(report, context, parts, by, wanted);
    if !matches!(by.room, Room::All) {
        return;
    }
    let all = wanted.text.chars().count();
    for count in 0..all {
        if is_tried(count, all) {
            let less = as_it_is(by.ways, Room::Characters(count));
            run_refused(report, context, parts, less, wanted);
        }
    }
    let exact = as_it_is(by.ways, Room::Characters(all));
    run_ways(report, context, parts, exact, wanted);
}

/// Whether the fault is one of a format's own.
fn is_own(fault: &Option<Error>) -> bool {
    matches!(
        fault,
        Some(Error::Parse(_)) | Some(Error::UnsupportedOption(_, _, _))
    )
}

/// Checks that the template of a format has the format's text, and that the check of a format with
/// a fault of its own reports one.
fn run_template(report: &mut Report<'_>, format: &str, wanted: &Outcome) -> Read<()> {
    let template = known(Template::parse(report.alloc, format))?;
    report.compare("Template::text", &format, &template.text());
    if is_own(&wanted.fault) {
        let came = template.check().err();
        report.check(
            whole("Template::check"),
            came.is_some(),
            &wanted.fault,
            &came,
        );
    }
    Ok(())
}

/// Checks that every way writes and returns what the row says, if it says so.
pub fn run_format(
    report: &mut Report<'_>,
    context: &ContextMap<'_, Cell>,
    row: &FormatRow<'_>,
) -> Read<()> {
    let Some(wanted) = &row.wanted else {
        return Ok(());
    };
    let parts = row.formats.iter().map(|part| part.as_str());
    let parts = parts.collect::<Vec<&str>>(report.alloc)?;
    let by = as_it_is(row.kind.ways(), row.room);
    run_by(report, context, &parts, by, wanted);
    if row.kind != Kind::Format {
        return Ok(());
    }
    if let Room::All = row.room {
        run_makings(report, context, row.format(), by.part, wanted);
    }
    run_template(report, row.format(), wanted)
}
