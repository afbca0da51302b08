//! Laws of the equality of positions, limits, costs and decimals, each the contract of a small
//! function, beside those of the reader's types.

ghost use Rattle.std.specs.Prelude.{◌≡◌, ◌↔◌, IsTrue};

use interpolator::{Decimal, Position};
use interpolator_pieces::{Cost, Limits};
pub use interpolator_syntax::laws::equality::{
    is_same_argument, is_same_group, is_same_kind, is_same_range,
};

/// Tests whether two positions are equal: exactly when their lines and their columns are.
pub fn is_same_position(position: Position, other: Position) -> bool
    ensures { IsTrue result ↔ (position ≡ other) }
{
    position == other
}

/// Tests whether two limits are equal: exactly when the most characters and the most items are.
pub fn is_same_limits(limits: Limits, other: Limits) -> bool
    ensures { IsTrue result ↔ (limits ≡ other) }
{
    limits == other
}

/// Tests whether two costs are equal: exactly when all three counts are.
pub fn is_same_cost(cost: Cost, other: Cost) -> bool
    ensures { IsTrue result ↔ (cost ≡ other) }
{
    cost == other
}

/// Tests whether two decimals are equal: exactly when their units and their scales are. So 12.5 and
/// 12.50, which are the same number, are not equal.
pub fn is_same_decimal(decimal: Decimal, other: Decimal) -> bool
    ensures { IsTrue result ↔ (decimal ≡ other) }
{
    decimal == other
}
