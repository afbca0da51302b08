//! The faults of a table.

ghost use Rattle.std.specs.Prelude.{◌≡◌, ◌+◌, ◌^◌, ◌<◌, ◌++◌, ◌∷◌, [], ℕ, List, Decides, IfOk};
ghost use Rattle.std.specs.Prelude.{MatchBool, false, length, true};
ghost use Rattle.merge.specs.Table.{broken, count_trouble, repeat_trouble, repeats, with_line};
ghost use Rattle.merge.specs.{Columns.names_in, Names.Knows};

use crate::columns::Column;
use records::Fault;
use std::alloc::{AllocError, Global};
use std::collections::BTreeMap;

/// What is wrong with a line.
#[derive(Clone, Copy, Debug)]
pub enum Trouble {
    /// It goes on with no record.
    Broken(Fault),
    /// It is the first, and there is none.
    Empty,
    /// It has this many fields, and not as many as there are names.
    Fields(usize),
    /// It gives the column of this number, from 1, the name of an earlier one.
    Twice(usize),
    /// Its field in the column of this number, from 1, is not the number or float that it wants.
    NotNumber(usize),
}

/// A line, by its number from 1, and what is wrong with it. A record is told by its first line; but
/// the names, by line 1, also if a line `sep=;` is above them.
#[derive(Clone, Copy, Debug)]
pub struct LineFault {
    pub line: usize,
    pub trouble: Trouble,
}

/// What is wrong with the number of fields of a record, for this number of names.
pub fn count_trouble(count: usize, names: usize) -> Option<Trouble>
    ensures { result ≡ count_trouble count names }
{
    if count == names {
        return None;
    }
    Some(Trouble::Fields(count))
}

/// Appends a line, if anything is wrong with it.
pub fn push_fault(
    faults: &mut Vec<LineFault>,
    line: usize,
    trouble: Option<Trouble>,
) -> Result<(), AllocError>
    ensures { IfOk result (λ _. faults.new.items ≡ faults.old.items ++ with_line line trouble) }
{
    match trouble {
        Some(trouble) => {
            faults.push(LineFault { line, trouble })?;
            Ok(())
        }
        None => Ok(()),
    }
}

/// Appends a fault by which the table goes on with no record.
pub fn push_broken(faults: &mut Vec<LineFault>, fault: Fault) -> Result<(), AllocError>
    ensures { IfOk result (λ _. faults.new.items ≡ faults.old.items ++ broken fault) }
{
    push_fault(faults, fault.place.line, Some(Trouble::Broken(fault)))
}

/// Appends the fault of a name that some before have, which come before it, and adds it to them.
fn push_repeat<'a>(
    faults: &mut Vec<LineFault>,
    seen: &mut BTreeMap<&'a str, usize>,
    before: usize,
    name: &'a str,
) -> Result<(), AllocError>
    requires { before + 1 < 2 ^ 64 }
    ensures faults { (names : List (List ℕ)) → Knows seen.old names → length names ≡ before
        → IfOk result (λ _.
        faults.new.items ≡ faults.old.items ++ with_line 1 (repeat_trouble names name.now)) }
    ensures seen { (names : List (List ℕ)) → Knows seen.old names
        → IfOk result (λ _. Knows seen.new (names ++ (name.now ∷ []))) }
{
    if seen.insert(name, before)?.is_none() {
        return Ok(());
    }
    push_fault(faults, 1, Some(Trouble::Twice(before + 1)))?;
    Ok(())
}

/// The faults of the first line: one for each column that has the name of an earlier one.
pub fn repeats_of(alloc: Global, columns: &[Column<'_>]) -> Result<Vec<LineFault>, AllocError>
    ensures { IfOk result (λ faults.
        faults.items ≡ repeats (names_in columns.now)) }
{
    let mut seen = BTreeMap::new(alloc);
    let mut faults = Vec::new(alloc);
    for (before, column) in columns.iter().enumerate() {
        push_repeat(&mut faults, &mut seen, before, column.name)?;
    }
    Ok(faults)
}

/// Whether there are no faults.
pub fn is_clean(faults: &[LineFault]) -> bool
    ensures { Decides result (faults.now ≡ []) }
{
    faults.is_empty()
}

/// Whether letters go on to be written: they do if that is asked for, and nothing is wrong.
pub fn goes_on(writes: bool, faults: &[LineFault]) -> bool
    ensures on { writes ≡ true → faults.now ≡ [] → result ≡ true }
    ensures off { writes ≡ false → result ≡ false }
{
    writes && faults.is_empty()
}
