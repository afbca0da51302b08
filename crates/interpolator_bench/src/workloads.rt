//! The tables of workloads.

use crate::escapes::{self, Text};
use crate::failure::Failure;
use crate::formats::Floats;
use crate::merge::{self, Kind};
use crate::uses::How;
use crate::values::Values;
use crate::{documents, formats, lists};
use interpolator::Escape;
use std::alloc::{AllocError, Global};

/// Sixty-four bytes of literal text.
const LITERAL: &str = "A line of plain text, sixty-four bytes long with its line end..\n";

/// Sixty-four bytes of doubled braces.
const BRACES: &str = "{{}}{{}}{{}}{{}}{{}}{{}}{{}}{{}}{{}}{{}}{{}}{{}}{{}}{{}}{{}}{{}}";

/// How many times sixty-four bytes make 64 KiB.
const COPIES_64K: u32 = 1024;

/// How many times sixty-four bytes make 1 MiB.
const COPIES_1M: u32 = 16 * COPIES_64K;

/// A text that is made again and again. On the command line it has a name of two parts.
#[derive(Clone, Copy)]
pub struct Workload {
    pub front: &'static str,
    pub name: &'static str,
    task: Task,
}

/// How a workload makes its text.
#[derive(Clone, Copy)]
enum Task {
    /// A format is used.
    Use(How, Shape),
    /// Values are written under specs.
    Write(Option<How>, Values),
    /// Letters are written by `write_to`.
    Merge(Kind),
    /// Letters are written by a template.
    MergeByTemplate(Kind),
    /// Letters are written by a prepared format.
    MergeByRow,
    /// A text is written escaped.
    Escape(Escape, Text),
}

/// A format and its context.
#[derive(Clone, Copy)]
enum Shape {
    LogLine,
    NumberNames,
    SignedNames,
    NegativeNames,
    TextNames,
    Json,
    Letter4K,
    TableRow,
    Amounts,
    FloatAmounts,
    Floats(Floats),
    Braces64K,
    Literal64K,
    Braces1M,
    Literal1M,
    List,
    AngledList,
    LongList,
    LongPaddedList,
    NestedLists,
}

/// The front of a name, and how a format is then used.
type Way = (&'static str, How);

const FORMAT: Way = ("", How::Format);

const WRITE: Way = ("write-", How::Write);

const TEMPLATE: Way = ("template-", How::Template);

const PREPARED: Way = ("prepared-", How::Prepared);

const PARSE: Way = ("parse-", How::Parse);

const PREPARE: Way = ("prepare-", How::Prepare);

const ALL: &[Way] = &[FORMAT, WRITE, TEMPLATE, PREPARED, PARSE, PREPARE];

const WRITTEN: &[Way] = &[FORMAT, WRITE, TEMPLATE, PREPARED];

const KEPT: &[Way] = &[WRITE, TEMPLATE, PREPARED];

/// Formats, each with the ways in which it is used.
#[rattlefmt::skip]
const SHAPES: [(&str, Shape, &[Way]); 26] = [
    ("log-line", Shape::LogLine, ALL),
    ("names-32-numbers", Shape::NumberNames, ALL),
    ("names-32-signed", Shape::SignedNames, KEPT),
    ("names-32-negative", Shape::NegativeNames, KEPT),
    ("names-18-texts", Shape::TextNames, WRITTEN),
    ("json-template", Shape::Json, &[FORMAT]),
    ("json", Shape::Json, KEPT),
    ("letter-4k", Shape::Letter4K, ALL),
    ("table-row", Shape::TableRow, WRITTEN),
    ("amounts", Shape::Amounts, KEPT),
    ("float-amounts", Shape::FloatAmounts, KEPT),
    ("floats", Shape::Floats(Floats::Short), KEPT),
    ("floats-whole", Shape::Floats(Floats::Whole), KEPT),
    ("floats-coordinates", Shape::Floats(Floats::Coordinates), KEPT),
    ("floats-far", Shape::Floats(Floats::Far), KEPT),
    ("floats-far-17", Shape::Floats(Floats::FarLong), KEPT),
    ("floats-any-17", Shape::Floats(Floats::AnyLong), KEPT),
    ("braces-64k", Shape::Braces64K, WRITTEN),
    ("literal-64k", Shape::Literal64K, ALL),
    ("braces-1m", Shape::Braces1M, &[FORMAT]),
    ("literal-1m", Shape::Literal1M, &[FORMAT, PARSE]),
    ("list-1000", Shape::List, ALL),
    ("list-1000-angled", Shape::AngledList, WRITTEN),
    ("list-100000", Shape::LongList, &[FORMAT]),
    ("list-100000-padded", Shape::LongPaddedList, &[FORMAT]),
    ("lists-32-deep", Shape::NestedLists, &[FORMAT, WRITE, TEMPLATE, PREPARED, PARSE]),
];

const FORMAT_VALUES: Way = ("format-", How::Format);

const VALUES_WRITTEN: &[Way] = &[FORMAT_VALUES, WRITE, TEMPLATE, PREPARED];

/// Values under specs, each with the ways in which their format is used. Each is also rendered.
#[rattlefmt::skip]
const VALUES: [(&str, Values, &[Way]); 16] = [
    ("specs", Values::Specs, &[FORMAT_VALUES, WRITE, TEMPLATE, PREPARED, PARSE, PREPARE]),
    ("radix", Values::Radix, VALUES_WRITTEN),
    ("exponents", Values::Exponents, VALUES_WRITTEN),
    ("padded-texts", Values::PaddedTexts, VALUES_WRITTEN),
    ("starred-texts", Values::StarredTexts, KEPT),
    ("accented-texts", Values::AccentedTexts, KEPT),
    ("wide", Values::Wide, VALUES_WRITTEN),
    ("wide-accents", Values::WideAccents, KEPT),
    ("long-digits", Values::LongDigits, &[]),
    ("long-decimals", Values::LongDecimals, &[]),
    ("60-bits", Values::SixtyBits, &[]),
    ("16-hex", Values::SixteenHex, &[]),
    ("floats", Values::Floats(Floats::Short), &[]),
    ("floats-whole", Values::Floats(Floats::Whole), &[]),
    ("floats-coordinates", Values::Floats(Floats::Coordinates), &[]),
    ("float-amounts", Values::FloatAmounts, &[]),
];

/// Letters.
#[rattlefmt::skip]
const MERGES: [Workload; 5] = [
    Workload { front: "", name: "merge-10000", task: Task::Merge(Kind::HashMap) },
    Workload { front: "", name: "merge-10000-pairs", task: Task::Merge(Kind::Pairs) },
    Workload { front: "template-", name: "merge-10000", task: Task::MergeByTemplate(Kind::HashMap) },
    Workload { front: "template-", name: "merge-10000-pairs", task: Task::MergeByTemplate(Kind::Pairs) },
    Workload { front: "prepared-", name: "merge-10000", task: Task::MergeByRow },
];

/// The escapes, by the front of a name.
#[rattlefmt::skip]
const ESCAPES: [(&str, Escape); 5] = [
    ("line-", Escape::Line),
    ("html-", Escape::Html),
    ("csv-", Escape::Csv),
    ("json-", Escape::Json),
    ("shell-", Escape::Shell),
];

/// All workloads, in the order in which `all` runs them.
pub fn workloads(alloc: Global) -> Result<Vec<Workload>, AllocError> {
    let mut all = Vec::new(alloc);
    for (name, shape, ways) in SHAPES {
        push_shape(&mut all, name, shape, ways)?;
    }
    for (name, values, ways) in VALUES {
        push_values(&mut all, name, values, ways)?;
    }
    for workload in MERGES {
        all.push(workload)?;
    }
    for (front, escape) in ESCAPES {
        push_escape(&mut all, front, escape)?;
    }
    Ok(all)
}

// Adds the texts that are written escaped.
fn push_escape(
    all: &mut Vec<Workload>,
    front: &'static str,
    escape: Escape,
) -> Result<(), AllocError> {
    for (name, text) in [("plain-1k", Text::Plain), ("prose-1k", Text::Prose)] {
        all.push(Workload {
            front,
            name,
            task: Task::Escape(escape, text),
        })?;
    }
    Ok(())
}

// Adds the uses of a format.
fn push_shape(
    all: &mut Vec<Workload>,
    name: &'static str,
    shape: Shape,
    ways: &[Way],
) -> Result<(), AllocError> {
    for (front, how) in ways {
        all.push(Workload {
            front: *front,
            name,
            task: Task::Use(*how, shape),
        })?;
    }
    Ok(())
}

// Adds the uses of values.
fn push_values(
    all: &mut Vec<Workload>,
    name: &'static str,
    values: Values,
    ways: &[Way],
) -> Result<(), AllocError> {
    for (front, how) in ways {
        all.push(Workload {
            front: *front,
            name,
            task: Task::Write(Some(*how), values),
        })?;
    }
    let task = Task::Write(None, values);
    all.push(Workload {
        front: "render-",
        name,
        task,
    })?;
    Ok(())
}

impl Workload {
    /// Whether it has this name on the command line.
    pub fn has_name(&self, name: &str) -> bool {
        name.strip_prefix(self.front) == Some(self.name)
    }

    /// Makes its text `repeats` times, and returns the last one: the empty text if `repeats` is 0.
    pub fn run(&self, alloc: Global, repeats: u32) -> Result<String, Failure> {
        match self.task {
            Task::Use(how, shape) => shape.repeat(alloc, how, repeats),
            Task::Write(how, values) => values.repeat(alloc, how, repeats),
            Task::Merge(kind) => merge::by_text(alloc, kind, repeats),
            Task::MergeByTemplate(kind) => merge::by_template(alloc, kind, repeats),
            Task::MergeByRow => merge::by_row(alloc, repeats),
            Task::Escape(escape, text) => escapes::escaped(alloc, escape, text, repeats),
        }
    }
}

impl Shape {
    // Uses the format `repeats` times.
    fn repeat(self, alloc: Global, how: How, repeats: u32) -> Result<String, Failure> {
        match self {
            Shape::LogLine => formats::log_line(alloc, how, repeats),
            Shape::NumberNames => formats::number_names(alloc, how, &formats::NUMBERS, repeats),
            Shape::SignedNames => {
                formats::number_names(alloc, how, &formats::SIGNED_NUMBERS, repeats)
            }
            Shape::NegativeNames => {
                formats::number_names(alloc, how, &formats::NEGATIVE_NUMBERS, repeats)
            }
            Shape::TextNames => formats::text_names(alloc, how, repeats),
            Shape::Json => documents::json(alloc, how, repeats),
            Shape::Letter4K => documents::letter(alloc, how, repeats),
            Shape::TableRow => documents::table_row(alloc, how, repeats),
            Shape::Amounts => formats::amounts(alloc, how, repeats),
            Shape::FloatAmounts => formats::float_amounts(alloc, how, repeats),
            Shape::Floats(kind) => formats::four_floats(alloc, how, kind, repeats),
            Shape::Braces64K => formats::copies(alloc, how, BRACES, COPIES_64K, repeats),
            Shape::Literal64K => formats::copies(alloc, how, LITERAL, COPIES_64K, repeats),
            Shape::Braces1M => formats::copies(alloc, how, BRACES, COPIES_1M, repeats),
            Shape::Literal1M => formats::copies(alloc, how, LITERAL, COPIES_1M, repeats),
            Shape::List => lists::numbers(alloc, how, 1_000, "{n:i({})(, )}", repeats),
            Shape::AngledList => lists::numbers(alloc, how, 1_000, "{n:i(<{}>)}", repeats),
            Shape::LongList => lists::numbers(alloc, how, 100_000, "{n:i({} )}", repeats),
            Shape::LongPaddedList => {
                lists::numbers(alloc, how, 100_000, "{n:>600000i({} )}", repeats)
            }
            Shape::NestedLists => lists::nested(alloc, how, repeats),
        }
    }
}
