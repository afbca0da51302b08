//! How a list is written: the part of a spec after the letter `i`.
ghost use Rattle.std.specs.Prelude.{◌≡◌};
ghost use Rattle.interpolator_syntax.specs.{Places.at, Arguments.list_read, Lists.list_at};

use crate::argument_fault::ArgumentFault;
use crate::bracket::take_group_if;
use crate::cursor::Cursor;
use crate::group::Group;
use crate::range::{Range, take_range};

/// How a list is written.
#[derive(Clone, Copy)]
pub struct ListForm<'a> {
    /// Which of its items are written; without a range, all of them.
    pub range: Option<Range>,
    /// The format of an item, in which the empty name is the item. Without one, each item is
    /// displayed plainly.
    pub item: Option<Group<'a>>,
    /// The format of what is written between two items; without one, nothing is.
    pub join: Option<Group<'a>>,
}

impl<'a> ListForm<'a> {
    ghost use Rattle.interpolator_syntax.specs.Arguments.{list_of};
    ghost use Rattle.interpolator_syntax.specs.Lists.{plain_list};

    /// All items, each displayed plainly, and nothing between them.
    #[inline(always)]
    pub fn plain() -> Self
        ensures { list_of result ≡ plain_list }
    {
        ListForm {
            range: None,
            item: None,
            join: None,
        }
    }
}

/// Reads what follows the letter, in the argument that begins at `start`, and goes past it. `list`
/// is filled in place, since returning it would copy the whole of it.
#[tactic(auto, unfolding(crate::specs::Lists::list_at))]
#[inline(always)]
pub(crate) fn take_list<'a>(
    here: &mut Cursor<'a>,
    list: &mut ListForm<'a>,
    start: usize,
) -> Result<(), ArgumentFault>
    ensures { list_read result list.new (at here.new) ≡ list_at start (at here.old) }
{
    list.range = take_range(here, start)?;
    list.item = take_group_if(here, start)?;
    list.join = take_group_if(here, start)?;
    Ok(())
}
