//! The faults that pieces have against a sample.
ghost use Rattle.std.specs.Prelude.{◌≡◌, ◌+◌, ◌<◌, ◌≤◌, ◌^◌, ℕ, List, [], true, false, Option};
ghost use Rattle.std.specs.Prelude.{IsSome, None, Some};
ghost use Rattle.std.specs.Str.{chars};
ghost use Rattle.interpolator_render.specs.declared.view.Trait.TheVariants.{Display};
ghost use Rattle.interpolator_render.specs.declared.view.Spec.{Spec};
ghost use Rattle.interpolator_syntax.specs.Nodes.{as_forest, target_value, target_list};
ghost use Rattle.interpolator_syntax.specs.{SpecTexts.plain_spec, Faults.result_answer};
ghost use Rattle.interpolator_syntax.specs.declared.range.Range.{Range};
ghost use Rattle.interpolator_eval.specs.Meaning.Samples.{sample_of, candidates_under, items_below};
ghost use Rattle.interpolator_eval.specs.Meaning.Samples.{all_shown, candidates_of, level_in};
ghost use Rattle.interpolator_eval.specs.Meaning.Samples.{level_of_items};
ghost use Rattle.interpolator_pieces.specs.NodeExtents.{node_depth, branch_depth, forest_depth};
ghost use Rattle.interpolator_pieces.specs.NodeSamples.{value_faults, found_faults, asked_of};
ghost use Rattle.interpolator_pieces.specs.NodeSamples.{item_of, items_of_content, node_faults_in};
ghost use Rattle.interpolator_pieces.specs.NodeSamples.{join_faults_in, forest_faults_in};
ghost use Rattle.interpolator_pieces.specs.Stored.{node_of, nodes_of, node_whole, forest_whole};
ghost use Rattle.interpolator_pieces.specs.Stored.{branch_of, content_of};
ghost use Rattle.interpolator_pieces.specs.Collecting.{Collects};
ghost use Rattle.interpolator_pieces.specs.StoredMeanings.{stored_name, unclosed_fault};
ghost use Rattle.interpolator_pieces.specs.declared.piece.Piece.TheViews.{out-Piece};

use crate::checks::{check_end, check_own};
use crate::fault_collector::FaultCollector;
use crate::piece::{Form, Piece, form_of, spec_end_of, spec_of};
use crate::piece_text::{name_of, text_of};
use interpolator_eval::{Candidates, Context, Items, LookUp, Need, SampleEnvironment};
use interpolator_render::{Spec, Trait, Value};
use interpolator_syntax::{Error, PieceKind};
use std::fmt;

/// Reports the faults of pieces, in order.
#[cycle(sample)]
pub fn collect_pieces<'a, C: Context>(
    collector: &mut FaultCollector,
    sample: &SampleEnvironment<'a, C, C::Object>,
    text: &str,
    pieces: &[Piece],
) -> Result<(), Error>
    requires whole { forest_whole (as_forest (nodes_of text.now pieces.now)) ≡ true }
    requires deep { level_in sample.now
        + forest_depth (as_forest (nodes_of text.now pieces.now)) + 1 < 2 ^ 64 }
    ensures collects { Collects (forest_faults_in C.Object.shows (sample_of C.finds sample.now)
        (as_forest (nodes_of text.now pieces.now))) collector.old collector.new (result_answer result) }
{
    for piece in pieces {
        collect_piece(collector, sample, text, piece)?;
    }
    Ok(())
}

/// Reports the faults of a piece, if it is not one of the many that plainly have none.
#[cycle(sample)]
fn collect_piece<'a, C: Context>(
    collector: &mut FaultCollector,
    sample: &SampleEnvironment<'a, C, C::Object>,
    text: &str,
    piece: &Piece,
) -> Result<(), Error>
    requires whole { node_whole (node_of text.now piece.now) ≡ true }
    requires deep { level_in sample.now + node_depth (node_of text.now piece.now) + 1 < 2 ^ 64 }
    ensures collects { Collects (node_faults_in C.Object.shows (sample_of C.finds sample.now)
        (node_of text.now piece.now)) collector.old collector.new (result_answer result) }
{
    if is_plainly_right(sample, text, piece) {
        return Ok(());
    }
    collect_parts(collector, sample, text, piece)
}

/// Reports the faults of the parts of a piece.
#[cycle(sample)]
fn collect_parts<'a, C: Context>(
    collector: &mut FaultCollector,
    sample: &SampleEnvironment<'a, C, C::Object>,
    text: &str,
    piece: &Piece,
) -> Result<(), Error>
    requires whole { node_whole (node_of text.now piece.now) ≡ true }
    requires deep { level_in sample.now + node_depth (node_of text.now piece.now) + 1 < 2 ^ 64 }
    ensures collects { Collects (node_faults_in C.Object.shows (sample_of C.finds sample.now)
        (node_of text.now piece.now)) collector.old collector.new (result_answer result) }
{
    collect_asked(collector, sample, text, piece)?;
    collector.collect_checked(check_own(piece))?;
    collect_item(collector, sample, text, piece)?;
    collect_join(collector, sample, text, piece)?;
    collector.collect_checked(check_end(piece))
}

/// Whether a piece without groups is text, or a closed argument whose value is shown.
fn is_plainly_right<'a, C: Context>(
    sample: &SampleEnvironment<'a, C, C::Object>,
    text: &str,
    piece: &Piece,
) -> bool
    requires whole { node_whole (node_of text.now piece.now) ≡ true }
    ensures right { result ≡ true → node_faults_in C.Object.shows (sample_of C.finds sample.now)
        (node_of text.now piece.now) ≡ [] }
{
    if has_groups(piece) {
        return false;
    }
    match form_of(piece) {
        Form::Text => true,
        Form::Plain => is_shown(sample, text, piece, Trait::Display, &Spec::default()),
        Form::Value(t) => is_shown(sample, text, piece, t, &spec_of(piece)),
        Form::List(_) => false,
        Form::Broken(_) => false,
    }
}

/// Whether a piece has an item format or a join.
fn has_groups(piece: &Piece) -> bool
    ensures none { result ≡ false
        → ((out-Piece piece.now).item ≡ None) × ((out-Piece piece.now).join ≡ None) }
{
    piece.item.is_some() || piece.join.is_some()
}

/// Whether an argument that asks for a value is closed, and all that may be under its name is shown.
fn is_shown<'a, C: Context>(
    sample: &SampleEnvironment<'a, C, C::Object>,
    text: &str,
    piece: &Piece,
    t: Trait,
    spec: &Spec,
) -> bool
    requires fits { IsSome (stored_name text.now piece.now) }
    ensures closed { result ≡ true → unclosed_fault piece.now ≡ None }
    ensures shown { result ≡ true → (name : List ℕ) → stored_name text.now piece.now ≡ Some name
        → all_shown C.Object.shows t spec.now (candidates_under (sample_of C.finds sample.now) name)
        ≡ true }
{
    match piece.kind {
        PieceKind::Closed => sample.shows(text_of(text, piece), t, spec),
        _ => false,
    }
}

/// Reports what the sample lacks for a piece.
fn collect_asked<'a, C: Context>(
    collector: &mut FaultCollector,
    sample: &SampleEnvironment<'a, C, C::Object>,
    text: &str,
    piece: &Piece,
) -> Result<(), Error>
    requires whole { node_whole (node_of text.now piece.now) ≡ true }
    ensures collects { Collects (asked_of C.Object.shows (sample_of C.finds sample.now)
        (content_of text.now piece.now)) collector.old collector.new (result_answer result) }
{
    let end = spec_end_of(piece);
    match form_of(piece) {
        Form::Text => Ok(()),
        Form::Broken(_) => Ok(()),
        Form::Plain => {
            let (start, name) = name_of(text, piece);
            let look_up = LookUp { start, name, end };
            collect_value(collector, sample, look_up, Trait::Display, &Spec::default())
        }
        Form::Value(t) => {
            let (start, name) = name_of(text, piece);
            let look_up = LookUp { start, name, end };
            collect_value(collector, sample, look_up, t, &spec_of(piece))
        }
        Form::List(_) => {
            let (start, name) = name_of(text, piece);
            collect_list(collector, sample, start, name, end)
        }
    }
}

/// Reports what is missing under the name of an argument that asks for a value.
fn collect_value<'a, C: Context>(
    collector: &mut FaultCollector,
    sample: &SampleEnvironment<'a, C, C::Object>,
    look_up: LookUp<'_>,
    t: Trait,
    spec: &Spec,
) -> Result<(), Error>
    ensures collects { let x = look_up.entry in
        Collects (found_faults C.Object.shows x.start (chars x.name.now) (target_value t)
        spec.now x.end (candidates_under (sample_of C.finds sample.now) (chars x.name.now)))
        collector.old collector.new (result_answer result) }
{
    let Some(found) = sample.candidates(look_up.name) else {
        return collector.collect(sample.missing(look_up.name, look_up.start));
    };
    collect_values(collector, &found, t, spec, look_up.end)
}

/// Reports that one of the values that may be under a name has no text, or fails.
fn collect_values<'a, V: Value>(
    collector: &mut FaultCollector,
    found: &Candidates<'a, V>,
    t: Trait,
    spec: &Spec,
    end: usize,
) -> Result<(), Error>
    ensures collects { Collects (value_faults V.shows t spec.now end (candidates_of found.now))
        collector.old collector.new (result_answer result) }
{
    if !found.any_lacks(Need::Shown(t, spec)) {
        return Ok(());
    }
    let missing = found.any_lacks(Need::Text(t, spec));
    collector.collect_if(missing, Error::MissingTraitImpl(t, end))?;
    let failed = found.any_lacks(Need::Success(t, spec));
    collector.collect_if(failed, Error::Fmt(fmt::Error, end))
}

/// Reports what is missing under the name of an argument that asks for a list.
fn collect_list<'a, C: Context>(
    collector: &mut FaultCollector,
    sample: &SampleEnvironment<'a, C, C::Object>,
    start: usize,
    name: &str,
    end: usize,
) -> Result<(), Error>
    ensures collects { (range : Option Range) (spec : Spec)
        → Collects (found_faults C.Object.shows start (chars name.now) (target_list range) spec end
        (candidates_under (sample_of C.finds sample.now) (chars name.now)))
        collector.old collector.new (result_answer result) }
{
    let Some(found) = sample.candidates(name) else {
        return collector.collect(sample.missing(name, start));
    };
    let missing = found.any_lacks(Need::List);
    collector.collect_if(missing, Error::MissingTraitImpl(Trait::Iter, end))
}

/// The items that a piece may have, if it asks for a list.
fn items_of<'a, C: Context>(
    sample: &SampleEnvironment<'a, C, C::Object>,
    text: &str,
    piece: &Piece,
) -> Items<'a, C::Object>
    requires whole { node_whole (node_of text.now piece.now) ≡ true }
    requires deep { level_in sample.now + 1 < 2 ^ 64 }
    ensures items { items_below result
        ≡ items_of_content (sample_of C.finds sample.now) (content_of text.now piece.now) }
    ensures level { level_of_items result ≤ level_in sample.now + 1 }
{
    let Form::List(_) = form_of(piece) else {
        return Items::none();
    };
    let (_, name) = name_of(text, piece);
    sample.items(name)
}

/// Reports the faults of the item format of a piece with each item that it may have; or, without an
/// item format, those of the items.
#[cycle(sample)]
fn collect_item<'a, C: Context>(
    collector: &mut FaultCollector,
    sample: &SampleEnvironment<'a, C, C::Object>,
    text: &str,
    piece: &Piece,
) -> Result<(), Error>
    requires whole { node_whole (node_of text.now piece.now) ≡ true }
    requires deep { level_in sample.now
        + branch_depth (branch_of text.now (out-Piece piece.now).item) + 1 < 2 ^ 64 }
    ensures collects { Collects (item_of C.Object.shows (sample_of C.finds sample.now)
        (content_of text.now piece.now) (branch_of text.now (out-Piece piece.now).item))
        collector.old collector.new (result_answer result) }
{
    let items = items_of(sample, text, piece);
    match &piece.item {
        Some(pieces) => collect_pieces(collector, &sample.bind_each(items), text, pieces),
        None => collect_plain(collector, items, spec_end_of(piece)),
    }
}

/// Reports that an item cannot be displayed plainly.
fn collect_plain<'a, V: Value>(
    collector: &mut FaultCollector,
    items: Items<'a, V>,
    end: usize,
) -> Result<(), Error>
    ensures collects { Collects (value_faults V.shows Display plain_spec end (items_below items.entry))
        collector.old collector.new (result_answer result) }
{
    let spec = Spec::default();
    let each = Candidates::Each(items);
    collect_values(collector, &each, Trait::Display, &spec, end)
}

/// Reports the faults of the join of a piece, if it has one.
#[cycle(sample)]
fn collect_join<'a, C: Context>(
    collector: &mut FaultCollector,
    sample: &SampleEnvironment<'a, C, C::Object>,
    text: &str,
    piece: &Piece,
) -> Result<(), Error>
    requires whole { node_whole (node_of text.now piece.now) ≡ true }
    requires deep { level_in sample.now
        + branch_depth (branch_of text.now (out-Piece piece.now).join) + 1 < 2 ^ 64 }
    ensures collects { Collects (join_faults_in C.Object.shows (sample_of C.finds sample.now)
        (branch_of text.now (out-Piece piece.now).join))
        collector.old collector.new (result_answer result) }
{
    match &piece.join {
        Some(pieces) => collect_pieces(collector, sample, text, pieces),
        None => Ok(()),
    }
}
