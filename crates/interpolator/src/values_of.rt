//! Rows of named values: one function for each count of names, up to nine.
ghost use Rattle.std.specs.Prelude.{◌≡◌, [], ◌∷◌};
ghost use Rattle.interpolator.specs.NamedValues.{pair_with, pairs_of};

use crate::values::{GAP, LentList, MOST, NamedView, Values, row};

/// A row without names.
#[inline(always)]
pub fn values_0<'a>() -> Values<'a>
    ensures { pairs_of result ≡ [] }
{
    Values {
        entries: [GAP; MOST],
        len: 0,
    }
}

/// A row of one name.
#[inline(always)]
pub fn values_1<'a>(a: NamedView<'a>, a_list: LentList<'a>) -> Values<'a>
    ensures { pairs_of result ≡ pair_with a.entry a_list.entry ∷ [] }
{
    row!(1; a a_list)
}

/// A row of two names.
#[inline(always)]
pub fn values_2<'a>(
    a: NamedView<'a>,
    a_list: LentList<'a>,
    b: NamedView<'a>,
    b_list: LentList<'a>,
) -> Values<'a>
    ensures { pairs_of result
        ≡ pair_with a.entry a_list.entry ∷ pair_with b.entry b_list.entry ∷ [] }
{
    row!(2; a a_list, b b_list)
}

/// A row of three names.
#[inline(always)]
pub fn values_3<'a>(
    a: NamedView<'a>,
    a_list: LentList<'a>,
    b: NamedView<'a>,
    b_list: LentList<'a>,
    c: NamedView<'a>,
    c_list: LentList<'a>,
) -> Values<'a>
    ensures { pairs_of result
        ≡ pair_with a.entry a_list.entry ∷ pair_with b.entry b_list.entry
        ∷ pair_with c.entry c_list.entry ∷ [] }
{
    row!(3; a a_list, b b_list, c c_list)
}

/// A row of four names.
#[inline(always)]
pub fn values_4<'a>(
    a: NamedView<'a>,
    a_list: LentList<'a>,
    b: NamedView<'a>,
    b_list: LentList<'a>,
    c: NamedView<'a>,
    c_list: LentList<'a>,
    d: NamedView<'a>,
    d_list: LentList<'a>,
) -> Values<'a>
    ensures { pairs_of result
        ≡ pair_with a.entry a_list.entry ∷ pair_with b.entry b_list.entry
        ∷ pair_with c.entry c_list.entry ∷ pair_with d.entry d_list.entry ∷ [] }
{
    row!(4; a a_list, b b_list, c c_list, d d_list)
}

/// A row of five names.
#[inline(always)]
pub fn values_5<'a>(
    a: NamedView<'a>,
    a_list: LentList<'a>,
    b: NamedView<'a>,
    b_list: LentList<'a>,
    c: NamedView<'a>,
    c_list: LentList<'a>,
    d: NamedView<'a>,
    d_list: LentList<'a>,
    e: NamedView<'a>,
    e_list: LentList<'a>,
) -> Values<'a>
    ensures { pairs_of result
        ≡ pair_with a.entry a_list.entry ∷ pair_with b.entry b_list.entry
        ∷ pair_with c.entry c_list.entry ∷ pair_with d.entry d_list.entry
        ∷ pair_with e.entry e_list.entry ∷ [] }
{
    row!(5; a a_list, b b_list, c c_list, d d_list, e e_list)
}

/// A row of six names.
#[inline(always)]
pub fn values_6<'a>(
    a: NamedView<'a>,
    a_list: LentList<'a>,
    b: NamedView<'a>,
    b_list: LentList<'a>,
    c: NamedView<'a>,
    c_list: LentList<'a>,
    d: NamedView<'a>,
    d_list: LentList<'a>,
    e: NamedView<'a>,
    e_list: LentList<'a>,
    f: NamedView<'a>,
    f_list: LentList<'a>,
) -> Values<'a>
    ensures { pairs_of result
        ≡ pair_with a.entry a_list.entry ∷ pair_with b.entry b_list.entry
        ∷ pair_with c.entry c_list.entry ∷ pair_with d.entry d_list.entry
        ∷ pair_with e.entry e_list.entry ∷ pair_with f.entry f_list.entry ∷ [] }
{
    row!(6; a a_list, b b_list, c c_list, d d_list, e e_list, f f_list)
}

/// A row of seven names.
#[inline(always)]
pub fn values_7<'a>(
    a: NamedView<'a>,
    a_list: LentList<'a>,
    b: NamedView<'a>,
    b_list: LentList<'a>,
    c: NamedView<'a>,
    c_list: LentList<'a>,
    d: NamedView<'a>,
    d_list: LentList<'a>,
    e: NamedView<'a>,
    e_list: LentList<'a>,
    f: NamedView<'a>,
    f_list: LentList<'a>,
    g: NamedView<'a>,
    g_list: LentList<'a>,
) -> Values<'a>
    ensures { pairs_of result
        ≡ pair_with a.entry a_list.entry ∷ pair_with b.entry b_list.entry
        ∷ pair_with c.entry c_list.entry ∷ pair_with d.entry d_list.entry
        ∷ pair_with e.entry e_list.entry ∷ pair_with f.entry f_list.entry
        ∷ pair_with g.entry g_list.entry ∷ [] }
{
    row!(7; a a_list, b b_list, c c_list, d d_list, e e_list, f f_list, g g_list)
}

/// A row of eight names.
#[inline(always)]
pub fn values_8<'a>(
    a: NamedView<'a>,
    a_list: LentList<'a>,
    b: NamedView<'a>,
    b_list: LentList<'a>,
    c: NamedView<'a>,
    c_list: LentList<'a>,
    d: NamedView<'a>,
    d_list: LentList<'a>,
    e: NamedView<'a>,
    e_list: LentList<'a>,
    f: NamedView<'a>,
    f_list: LentList<'a>,
    g: NamedView<'a>,
    g_list: LentList<'a>,
    h: NamedView<'a>,
    h_list: LentList<'a>,
) -> Values<'a>
    ensures { pairs_of result
        ≡ pair_with a.entry a_list.entry ∷ pair_with b.entry b_list.entry
        ∷ pair_with c.entry c_list.entry ∷ pair_with d.entry d_list.entry
        ∷ pair_with e.entry e_list.entry ∷ pair_with f.entry f_list.entry
        ∷ pair_with g.entry g_list.entry ∷ pair_with h.entry h_list.entry ∷ [] }
{
    row!(8; a a_list, b b_list, c c_list, d d_list, e e_list, f f_list, g g_list, h h_list)
}

/// A row of nine names.
#[inline(always)]
pub fn values_9<'a>(
    a: NamedView<'a>,
    a_list: LentList<'a>,
    b: NamedView<'a>,
    b_list: LentList<'a>,
    c: NamedView<'a>,
    c_list: LentList<'a>,
    d: NamedView<'a>,
    d_list: LentList<'a>,
    e: NamedView<'a>,
    e_list: LentList<'a>,
    f: NamedView<'a>,
    f_list: LentList<'a>,
    g: NamedView<'a>,
    g_list: LentList<'a>,
    h: NamedView<'a>,
    h_list: LentList<'a>,
    i: NamedView<'a>,
    i_list: LentList<'a>,
) -> Values<'a>
    ensures { pairs_of result
        ≡ pair_with a.entry a_list.entry ∷ pair_with b.entry b_list.entry
        ∷ pair_with c.entry c_list.entry ∷ pair_with d.entry d_list.entry
        ∷ pair_with e.entry e_list.entry ∷ pair_with f.entry f_list.entry
        ∷ pair_with g.entry g_list.entry ∷ pair_with h.entry h_list.entry
        ∷ pair_with i.entry i_list.entry ∷ [] }
{
    row!(
        9; a a_list, b b_list, c c_list, d d_list, e e_list, f f_list, g g_list, h h_list, i i_list
    )
}
