//! Rows of named values: one function for each count of names from ten to thirteen.
ghost use Rattle.std.specs.Prelude.{◌≡◌, [], ◌∷◌};
ghost use Rattle.interpolator.specs.NamedValues.{pair_with, pairs_of};

use crate::values::{LentList, NamedView, Values, row};

/// A row of ten names.
#[inline(always)]
pub fn values_10<'a>(
    a: NamedView<'a>,
    a_list: LentList<'a>,
    b: NamedView<'a>,
    b_list: LentList<'a>,
    c: NamedView<'a>,
    c_list: LentList<'a>,
    d: NamedView<'a>,
    d_list: LentList<'a>,
    e: NamedView<'a>,
    e_list: LentList<'a>,
    f: NamedView<'a>,
    f_list: LentList<'a>,
    g: NamedView<'a>,
    g_list: LentList<'a>,
    h: NamedView<'a>,
    h_list: LentList<'a>,
    i: NamedView<'a>,
    i_list: LentList<'a>,
    j: NamedView<'a>,
    j_list: LentList<'a>,
) -> Values<'a>
    ensures { pairs_of result
        ≡ pair_with a.entry a_list.entry ∷ pair_with b.entry b_list.entry
        ∷ pair_with c.entry c_list.entry ∷ pair_with d.entry d_list.entry
        ∷ pair_with e.entry e_list.entry ∷ pair_with f.entry f_list.entry
        ∷ pair_with g.entry g_list.entry ∷ pair_with h.entry h_list.entry
        ∷ pair_with i.entry i_list.entry ∷ pair_with j.entry j_list.entry ∷ [] }
{
    row!(
        10; a a_list, b b_list, c c_list, d d_list, e e_list, f f_list, g g_list, h h_list,
        i i_list, j j_list
    )
}

/// A row of eleven names.
#[inline(always)]
pub fn values_11<'a>(
    a: NamedView<'a>,
    a_list: LentList<'a>,
    b: NamedView<'a>,
    b_list: LentList<'a>,
    c: NamedView<'a>,
    c_list: LentList<'a>,
    d: NamedView<'a>,
    d_list: LentList<'a>,
    e: NamedView<'a>,
    e_list: LentList<'a>,
    f: NamedView<'a>,
    f_list: LentList<'a>,
    g: NamedView<'a>,
    g_list: LentList<'a>,
    h: NamedView<'a>,
    h_list: LentList<'a>,
    i: NamedView<'a>,
    i_list: LentList<'a>,
    j: NamedView<'a>,
    j_list: LentList<'a>,
    k: NamedView<'a>,
    k_list: LentList<'a>,
) -> Values<'a>
    ensures { pairs_of result
        ≡ pair_with a.entry a_list.entry ∷ pair_with b.entry b_list.entry
        ∷ pair_with c.entry c_list.entry ∷ pair_with d.entry d_list.entry
        ∷ pair_with e.entry e_list.entry ∷ pair_with f.entry f_list.entry
        ∷ pair_with g.entry g_list.entry ∷ pair_with h.entry h_list.entry
        ∷ pair_with i.entry i_list.entry ∷ pair_with j.entry j_list.entry
        ∷ pair_with k.entry k_list.entry ∷ [] }
{
    row!(
        11; a a_list, b b_list, c c_list, d d_list, e e_list, f f_list, g g_list, h h_list,
        i i_list, j j_list, k k_list
    )
}

/// A row of twelve names.
#[inline(always)]
pub fn values_12<'a>(
    a: NamedView<'a>,
    a_list: LentList<'a>,
    b: NamedView<'a>,
    b_list: LentList<'a>,
    c: NamedView<'a>,
    c_list: LentList<'a>,
    d: NamedView<'a>,
    d_list: LentList<'a>,
    e: NamedView<'a>,
    e_list: LentList<'a>,
    f: NamedView<'a>,
    f_list: LentList<'a>,
    g: NamedView<'a>,
    g_list: LentList<'a>,
    h: NamedView<'a>,
    h_list: LentList<'a>,
    i: NamedView<'a>,
    i_list: LentList<'a>,
    j: NamedView<'a>,
    j_list: LentList<'a>,
    k: NamedView<'a>,
    k_list: LentList<'a>,
    l: NamedView<'a>,
    l_list: LentList<'a>,
) -> Values<'a>
    ensures { pairs_of result
        ≡ pair_with a.entry a_list.entry ∷ pair_with b.entry b_list.entry
        ∷ pair_with c.entry c_list.entry ∷ pair_with d.entry d_list.entry
        ∷ pair_with e.entry e_list.entry ∷ pair_with f.entry f_list.entry
        ∷ pair_with g.entry g_list.entry ∷ pair_with h.entry h_list.entry
        ∷ pair_with i.entry i_list.entry ∷ pair_with j.entry j_list.entry
        ∷ pair_with k.entry k_list.entry ∷ pair_with l.entry l_list.entry ∷ [] }
{
    row!(
        12; a a_list, b b_list, c c_list, d d_list, e e_list, f f_list, g g_list, h h_list,
        i i_list, j j_list, k k_list, l l_list
    )
}

/// A row of thirteen names.
#[inline(always)]
pub fn values_13<'a>(
    a: NamedView<'a>,
    a_list: LentList<'a>,
    b: NamedView<'a>,
    b_list: LentList<'a>,
    c: NamedView<'a>,
    c_list: LentList<'a>,
    d: NamedView<'a>,
    d_list: LentList<'a>,
    e: NamedView<'a>,
    e_list: LentList<'a>,
    f: NamedView<'a>,
    f_list: LentList<'a>,
    g: NamedView<'a>,
    g_list: LentList<'a>,
    h: NamedView<'a>,
    h_list: LentList<'a>,
    i: NamedView<'a>,
    i_list: LentList<'a>,
    j: NamedView<'a>,
    j_list: LentList<'a>,
    k: NamedView<'a>,
    k_list: LentList<'a>,
    l: NamedView<'a>,
    l_list: LentList<'a>,
    m: NamedView<'a>,
    m_list: LentList<'a>,
) -> Values<'a>
    ensures { pairs_of result
        ≡ pair_with a.entry a_list.entry ∷ pair_with b.entry b_list.entry
        ∷ pair_with c.entry c_list.entry ∷ pair_with d.entry d_list.entry
        ∷ pair_with e.entry e_list.entry ∷ pair_with f.entry f_list.entry
        ∷ pair_with g.entry g_list.entry ∷ pair_with h.entry h_list.entry
        ∷ pair_with i.entry i_list.entry ∷ pair_with j.entry j_list.entry
        ∷ pair_with k.entry k_list.entry ∷ pair_with l.entry l_list.entry
        ∷ pair_with m.entry m_list.entry ∷ [] }
{
    row!(
        13; a a_list, b b_list, c c_list, d d_list, e e_list, f f_list, g g_list, h h_list,
        i i_list, j j_list, k k_list, l l_list, m m_list
    )
}
