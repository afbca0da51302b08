//! The total of cells.

ghost use Rattle.std.specs.Prelude.{◌≡◌, ◌++◌, ◌∷◌, [], FitsSigned, IfErr, IfOk, SomeIff, map};
ghost use Rattle.std.specs.Prelude.{None, eqb, option_map, vec_items};
ghost use Rattle.std.specs.{Int.w128, List.list_any, List.position, List.starts_with};
ghost use Rattle.interpolator.specs.{DecimalTexts.decimal_of, declared.decimal.Decimal.Decimal};
ghost use Rattle.report.specs.Totals.{AreCells, Explains, IsCell, IsTotal, exact_sum, exact_total};
ghost use Rattle.report.specs.Totals.{greatest_scale, is_code, is_large, numbers_in, total_with};
ghost use Rattle.report.specs.declared.totals.NoTotal.TheVariants.{NoMemory};

use crate::places::{number_of, places_of};
use interpolator::{Decimal, NumberError};
use std::alloc::{AllocError, Global};

/// What an entry is.
#[derive(Clone, Copy)]
pub enum Cell {
    /// Empty.
    Empty,
    /// A number of 128 bits.
    Number(Decimal),
    /// A number of more.
    Large,
    /// No number.
    Other,
}

/// The sum of the numbers among cells.
#[derive(Clone, Copy)]
pub struct Total {
    pub sum: Decimal,
    /// How many numbers there are.
    pub counted: usize,
}

/// Why cells have no total.
#[derive(Clone, Copy)]
pub enum NoTotal {
    /// Memory ran out.
    NoMemory,
    /// After so many cells comes the first number of more than 128 bits.
    Number(usize),
    /// The sum has more than 128 bits.
    Sum,
}

impl From<AllocError> for NoTotal {
    ghost from_gives = { λ _ why. why ≡ NoMemory };

    fn from(_refused: AllocError) -> NoTotal {
        NoTotal::NoMemory
    }
}

/// What an entry is.
pub fn cell_of(entry: &str) -> Cell
    ensures { IsCell entry.now result }
{
    match Decimal::parse(entry) {
        Ok(number) => Cell::Number(number),
        Err(NumberError::Empty) => Cell::Empty,
        Err(NumberError::InvalidDigit) => Cell::Other,
        Err(NumberError::PosOverflow) => Cell::Large,
        Err(NumberError::NegOverflow) => Cell::Large,
    }
}

/// What each entry is.
pub fn cells_of(alloc: Global, entries: &[&str]) -> Result<Vec<Cell>, AllocError>
    ensures { IfOk result (λ cells. AreCells (map (λ x. x.now) entries.now) cells.items) }
{
    let mut cells = Vec::with_capacity(alloc, entries.len())?;
    for entry in entries {
        cells.push(cell_of(entry))?;
    }
    Ok(cells)
}

/// Whether a text begins with another.
#[tactic(auto, using(std::proofs::lemmas::Slice::Eq::starts_is))]
fn begins(text: &str, front: &str) -> bool
    ensures { result ≡ starts_with eqb text.now front.now }
{
    match text.strip_prefix(front) {
        Some(_) => true,
        None => false,
    }
}

/// Whether a whole number is a code, as of the post: it has a zero or a plus in front, which would
/// be lost if it were shown as a number.
fn is_code(entry: &str) -> bool
    ensures { result ≡ is_code entry.now }
{
    begins(entry, "+") || begins(entry, "-0") || (begins(entry, "0") && entry.len() > 1)
}

/// Whether one of some whole numbers is a code.
pub fn has_codes(entries: &[&str]) -> bool
    ensures { result ≡ list_any (λ entry. is_code entry.now) entries.now }
{
    entries.iter().any(|entry| is_code(entry))
}

/// Whether a cell is a number of more than 128 bits.
fn is_large(cell: Cell) -> bool
    ensures { result ≡ is_large cell }
{
    matches!(cell, Cell::Large)
}

/// How many cells come before the first number of more than 128 bits.
pub fn first_large(cells: &[Cell]) -> Option<usize>
    ensures { result ≡ position is_large cells.now }
{
    cells.iter().position(|cell| is_large(*cell))
}

/// Appends the number of a cell, if it is one.
fn push_number(numbers: &mut Vec<Decimal>, cell: Cell) -> Result<(), AllocError>
    ensures { IfOk result (λ _.
        numbers.new.items ≡ numbers.old.items ++ numbers_in (cell ∷ [])) }
{
    if let Cell::Number(number) = cell {
        numbers.push(number)?;
    }
    Ok(())
}

/// The numbers among cells.
fn numbers_of(alloc: Global, cells: &[Cell]) -> Result<Vec<Decimal>, AllocError>
    ensures { IfOk result (λ numbers. numbers.items ≡ numbers_in cells.now) }
{
    let mut numbers = Vec::new(alloc);
    for cell in cells {
        push_number(&mut numbers, *cell)?;
    }
    Ok(numbers)
}

/// The greatest scale of some numbers.
fn greatest_scale(numbers: &[Decimal]) -> u32
    ensures { result ≡ greatest_scale numbers.now }
{
    let mut scale = 0;
    for number in numbers {
        scale = number.scale.max(scale);
    }
    scale
}

/// The total of these units, if there are any.
fn with_scale(units: Option<i128>, scale: u32, counted: usize) -> Option<Total>
    ensures { result ≡ option_map (λ units. total_with (decimal_of units scale) counted) units }
{
    match units {
        Some(units) => Some(Total {
            sum: Decimal { units, scale },
            counted,
        }),
        None => None,
    }
}

/// The total of some numbers, if the units of their sum fit at the greatest of their scales.
fn sum_of(alloc: Global, numbers: &[Decimal]) -> Result<Option<Total>, AllocError>
    ensures { IfOk result (λ total. SomeIff total
        (FitsSigned w128 (exact_sum numbers.now).units) (exact_total numbers.now)) }
{
    let scale = greatest_scale(numbers);
    let places = places_of(alloc, numbers, scale)?;
    Ok(with_scale(number_of(&places), scale, numbers.len()))
}

/// The total of cells, of which none is too large.
fn small_total(alloc: Global, cells: &[Cell]) -> Result<Total, NoTotal>
    requires { position is_large cells.now ≡ None }
    ensures ok { IfOk result (λ total. IsTotal cells.now total) }
    ensures err { IfErr result (λ why. Explains cells.now why) }
{
    let numbers = numbers_of(alloc, cells)?;
    match sum_of(alloc, &numbers) {
        Ok(Some(total)) => Ok(total),
        Ok(None) => Err(NoTotal::Sum),
        Err(_) => Err(NoTotal::NoMemory),
    }
}

/// The total of cells: the exact sum of the numbers among them, with as many digits after the point
/// as the number that has the most, and how many they are. An empty cell counts as none.
///
/// # Errors
///
/// - `NoMemory`: memory ran out.
/// - `Number`: a cell is a number of more than 128 bits.
/// - `Sum`: none is, and the exact sum has more.
pub fn total_of(alloc: Global, cells: &[Cell]) -> Result<Total, NoTotal>
    ensures ok { IfOk result (λ total. IsTotal cells.now total) }
    ensures err { IfErr result (λ why. Explains cells.now why) }
{
    match first_large(cells) {
        Some(before) => Err(NoTotal::Number(before)),
        None => small_total(alloc, cells),
    }
}
