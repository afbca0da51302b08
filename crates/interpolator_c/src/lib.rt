//! What C calls: `interpolator_border`, under the names of `bindings/c/interpolator.h`.
#![tactic(auto)]

ghost use Rattle.std.specs.Prelude.{◌≡◌, ◌<◌, IfSome};
ghost use Rattle.interpolator_border.specs.Answers.{FormatAnswers, ReportedCode, WriteAnswers};
ghost use Rattle.interpolator_border.specs.Checks.{AloneAnswers, CheckAnswers, ExplainAnswers};
ghost use Rattle.interpolator_border.specs.Checks.{FaultsAnswers, NeverFails};
ghost use Rattle.interpolator_border.specs.Escaped.{EscapedBy, escape_numbered, no_escape_sentence};
ghost use Rattle.interpolator_border.specs.{Arguments.ArgumentAnswers, Costs.CostAnswers};
ghost use Rattle.interpolator_border.specs.{Fields.field_shows, Layouts.layout_of_c};
ghost use Rattle.interpolator_border.specs.Tables.{RowsAnswers};

use interpolator_border::{
    Answer, Argument, CostAnswer, Fault, Field, FieldRow, Located, Sizes, Source, Table,
};
use std::alloc::Global;

/// The whole text of a format with a row, or none.
#[unsafe(no_mangle)]
pub extern "C" fn interpolator_format<'a>(
    alloc: Global,
    format: &[u8],
    fields: &'a [Field<'a>],
    items: &'a [Field<'a>],
    room: &mut [u8],
) -> Answer
    ensures { FormatAnswers field_shows fields.now items.now format.now room.old room.new result }
{
    interpolator_border::format(alloc, format, FieldRow { fields, items }, room)
}

/// The whole text of a format with a row, each value escaped, if all of them stand in places.
#[unsafe(no_mangle)]
pub extern "C" fn interpolator_escaped<'a>(
    alloc: Global,
    escape: u32,
    format: &[u8],
    fields: &'a [Field<'a>],
    items: &'a [Field<'a>],
    room: &mut [u8],
) -> Answer
    ensures plain { escape ≡ 0
        → FormatAnswers field_shows fields.now items.now format.now room.old room.new result }
    ensures escaped { IfSome (escape_numbered escape) (λ e. EscapedBy e fields.now items.now
        format.now room.old room.new result) }
    ensures unknown { 5 < escape → ReportedCode 12 no_escape_sentence room.old room.new result }
{
    interpolator_border::escaped(alloc, escape, format, FieldRow { fields, items }, room)
}

/// The text of a format with a row, up to its first fault.
#[unsafe(no_mangle)]
pub extern "C" fn interpolator_write<'a>(
    alloc: Global,
    format: &[u8],
    fields: &'a [Field<'a>],
    items: &'a [Field<'a>],
    room: &mut [u8],
    sentence: &mut [u8],
) -> Answer
    ensures { WriteAnswers fields.now items.now format.now room.old room.new sentence.old
        sentence.new result }
{
    interpolator_border::write(alloc, format, FieldRow { fields, items }, room, sentence)
}

/// The first fault of a format with a row of examples.
#[unsafe(no_mangle)]
pub extern "C" fn interpolator_check<'a>(
    alloc: Global,
    format: &[u8],
    fields: &'a [Field<'a>],
    items: &'a [Field<'a>],
    room: &mut [u8],
) -> Answer
    ensures answer { CheckAnswers fields.now items.now format.now room.old room.new result }
    ensures never_fails { result.code ≡ 0 → NeverFails fields.now items.now format.now }
{
    interpolator_border::check(alloc, format, FieldRow { fields, items }, room)
}

/// The first fault of a format by itself.
#[unsafe(no_mangle)]
pub extern "C" fn interpolator_check_alone(alloc: Global, format: &[u8], room: &mut [u8]) -> Answer
    ensures { AloneAnswers format.now room.old room.new result }
{
    interpolator_border::check_alone(alloc, format, room)
}

/// All faults of a format with a row of examples.
#[unsafe(no_mangle)]
pub extern "C" fn interpolator_faults<'a>(
    alloc: Global,
    format: &[u8],
    fields: &'a [Field<'a>],
    items: &'a [Field<'a>],
    faults: &mut [Fault],
) -> Answer
    ensures { FaultsAnswers fields.now items.now format.now faults.old faults.new result }
{
    interpolator_border::faults(alloc, format, FieldRow { fields, items }, faults)
}

/// One of these faults, as a compiler shows it.
#[unsafe(no_mangle)]
pub extern "C" fn interpolator_explain<'a>(
    alloc: Global,
    source: &Source<'_>,
    format: &[u8],
    fields: &'a [Field<'a>],
    items: &'a [Field<'a>],
    which: usize,
    room: &mut [u8],
) -> Answer
    ensures { ExplainAnswers source.now fields.now items.now which format.now room.old room.new
        result }
{
    let located = Located {
        source: &*source,
        format: &*format,
    };
    interpolator_border::explain(alloc, located, FieldRow { fields, items }, which, room)
}

/// A format with each row of a table.
#[unsafe(no_mangle)]
pub extern "C" fn interpolator_rows<'a>(
    alloc: Global,
    format: &[u8],
    columns: &'a [Field<'a>],
    cells: &'a [Field<'a>],
    ends: &mut [usize],
    room: &mut [u8],
) -> Answer
    ensures { RowsAnswers columns.now cells.now format.now ends.old ends.new room.old room.new
        result }
{
    interpolator_border::rows(alloc, format, Table { columns, cells }, ends, room)
}

/// How much a format can write, over values within limits.
#[unsafe(no_mangle)]
pub extern "C" fn interpolator_cost(
    alloc: Global,
    format: &[u8],
    text: usize,
    items: usize,
) -> CostAnswer
    ensures { CostAnswers text items format.now result }
{
    interpolator_border::cost(alloc, format, text, items)
}

/// The arguments of a format.
#[unsafe(no_mangle)]
pub extern "C" fn interpolator_arguments(
    alloc: Global,
    format: &[u8],
    arguments: &mut [Argument],
) -> Answer
    ensures { ArgumentAnswers format.now arguments.old arguments.new result }
{
    interpolator_border::arguments(alloc, format, arguments)
}

/// The sizes and offsets of the structs.
#[unsafe(no_mangle)]
pub extern "C" fn interpolator_layout() -> Sizes
    ensures { result ≡ layout_of_c }
{
    interpolator_border::layout()
}

/// The version of the structs and calls.
#[unsafe(no_mangle)]
pub extern "C" fn interpolator_version() -> u32
    ensures { result ≡ 1 }
{
    interpolator_border::VERSION
}
