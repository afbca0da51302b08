//! The cells of a row of a table as a row of a prepared format.
ghost use Rattle.interpolator.specs.Prepared.Rows.{found_by_row};
ghost use Rattle.interpolator_border.specs.{Fields.field_slots, Tables.cell_at};
ghost use Rattle.interpolator_eval.specs.Slots.{slots_of};
ghost use Rattle.std.specs.Prelude.{◌≡◌, []};

use crate::field::Field;
use crate::slots::field_slots;
use interpolator::{Formattable, PreparedRow, Trait};
use interpolator_eval::slot_of;
use interpolator_prepared::last_position;

/// What a cell stands for.
#[inline(always)]
fn cell_slots<'a>(cell: &'a Field<'a>) -> Formattable<'a, Field<'a>>
    ensures { slots_of result ≡ field_slots [] cell.now }
{
    field_slots(&[], cell)
}

/// Cells, in the order of the columns. A list among them has no items.
#[derive(Clone, Copy)]
pub(crate) struct CellRow<'a>(pub(crate) &'a [Field<'a>]);

impl<'a> PreparedRow for CellRow<'a> {
    type Object = Field<'a>;

    ghost finds_in = { λ row names name. found_by_row names (cell_at row.0.now) name };

    ghost value_at = { λ row position. cell_at row.0.now position };

    #[inline(always)]
    fn is_in_order(&self, names: &[String]) -> bool {
        names.len() <= self.0.len()
    }

    #[inline(always)]
    fn value(&self, position: usize, wanted: Trait) -> Option<&Field<'a>> {
        match self.0.get(position) {
            Some(cell) => slot_of(&cell_slots(cell), wanted),
            None => None,
        }
    }

    fn find(&self, names: &[String], name: &str) -> Option<Formattable<'_, Field<'a>>> {
        match last_position(names, name) {
            Some(position) => match self.0.get(position) {
                Some(cell) => Some(cell_slots(cell)),
                None => None,
            },
            None => None,
        }
    }
}
