//! Rows of named values: one function for each count of names from fourteen to sixteen.
ghost use Rattle.std.specs.Prelude.{◌≡◌, [], ◌∷◌};
ghost use Rattle.interpolator.specs.NamedValues.{pair_with, pairs_of};

use crate::values::{LentList, NamedView, Values, row};

/// A row of fourteen names.
#[inline(always)]
pub fn values_14<'a>(
    a: NamedView<'a>,
    a_list: LentList<'a>,
    b: NamedView<'a>,
    b_list: LentList<'a>,
    c: NamedView<'a>,
    c_list: LentList<'a>,
    d: NamedView<'a>,
    d_list: LentList<'a>,
    e: NamedView<'a>,
    e_list: LentList<'a>,
    f: NamedView<'a>,
    f_list: LentList<'a>,
    g: NamedView<'a>,
    g_list: LentList<'a>,
    h: NamedView<'a>,
    h_list: LentList<'a>,
    i: NamedView<'a>,
    i_list: LentList<'a>,
    j: NamedView<'a>,
    j_list: LentList<'a>,
    k: NamedView<'a>,
    k_list: LentList<'a>,
    l: NamedView<'a>,
    l_list: LentList<'a>,
    m: NamedView<'a>,
    m_list: LentList<'a>,
    n: NamedView<'a>,
    n_list: LentList<'a>,
) -> Values<'a>
    ensures { pairs_of result
        ≡ pair_with a.entry a_list.entry ∷ pair_with b.entry b_list.entry
        ∷ pair_with c.entry c_list.entry ∷ pair_with d.entry d_list.entry
        ∷ pair_with e.entry e_list.entry ∷ pair_with f.entry f_list.entry
        ∷ pair_with g.entry g_list.entry ∷ pair_with h.entry h_list.entry
        ∷ pair_with i.entry i_list.entry ∷ pair_with j.entry j_list.entry
        ∷ pair_with k.entry k_list.entry ∷ pair_with l.entry l_list.entry
        ∷ pair_with m.entry m_list.entry ∷ pair_with n.entry n_list.entry ∷ [] }
{
    row!(
        14; a a_list, b b_list, c c_list, d d_list, e e_list, f f_list, g g_list, h h_list,
        i i_list, j j_list, k k_list, l l_list, m m_list, n n_list
    )
}

/// A row of fifteen names.
#[inline(always)]
pub fn values_15<'a>(
    a: NamedView<'a>,
    a_list: LentList<'a>,
    b: NamedView<'a>,
    b_list: LentList<'a>,
    c: NamedView<'a>,
    c_list: LentList<'a>,
    d: NamedView<'a>,
    d_list: LentList<'a>,
    e: NamedView<'a>,
    e_list: LentList<'a>,
    f: NamedView<'a>,
    f_list: LentList<'a>,
    g: NamedView<'a>,
    g_list: LentList<'a>,
    h: NamedView<'a>,
    h_list: LentList<'a>,
    i: NamedView<'a>,
    i_list: LentList<'a>,
    j: NamedView<'a>,
    j_list: LentList<'a>,
    k: NamedView<'a>,
    k_list: LentList<'a>,
    l: NamedView<'a>,
    l_list: LentList<'a>,
    m: NamedView<'a>,
    m_list: LentList<'a>,
    n: NamedView<'a>,
    n_list: LentList<'a>,
    o: NamedView<'a>,
    o_list: LentList<'a>,
) -> Values<'a>
    ensures { pairs_of result
        ≡ pair_with a.entry a_list.entry ∷ pair_with b.entry b_list.entry
        ∷ pair_with c.entry c_list.entry ∷ pair_with d.entry d_list.entry
        ∷ pair_with e.entry e_list.entry ∷ pair_with f.entry f_list.entry
        ∷ pair_with g.entry g_list.entry ∷ pair_with h.entry h_list.entry
        ∷ pair_with i.entry i_list.entry ∷ pair_with j.entry j_list.entry
        ∷ pair_with k.entry k_list.entry ∷ pair_with l.entry l_list.entry
        ∷ pair_with m.entry m_list.entry ∷ pair_with n.entry n_list.entry
        ∷ pair_with o.entry o_list.entry ∷ [] }
{
    row!(
        15; a a_list, b b_list, c c_list, d d_list, e e_list, f f_list, g g_list, h h_list,
        i i_list, j j_list, k k_list, l l_list, m m_list, n n_list, o o_list
    )
}

/// A row of sixteen names.
#[inline(always)]
pub fn values_16<'a>(
    a: NamedView<'a>,
    a_list: LentList<'a>,
    b: NamedView<'a>,
    b_list: LentList<'a>,
    c: NamedView<'a>,
    c_list: LentList<'a>,
    d: NamedView<'a>,
    d_list: LentList<'a>,
    e: NamedView<'a>,
    e_list: LentList<'a>,
    f: NamedView<'a>,
    f_list: LentList<'a>,
    g: NamedView<'a>,
    g_list: LentList<'a>,
    h: NamedView<'a>,
    h_list: LentList<'a>,
    i: NamedView<'a>,
    i_list: LentList<'a>,
    j: NamedView<'a>,
    j_list: LentList<'a>,
    k: NamedView<'a>,
    k_list: LentList<'a>,
    l: NamedView<'a>,
    l_list: LentList<'a>,
    m: NamedView<'a>,
    m_list: LentList<'a>,
    n: NamedView<'a>,
    n_list: LentList<'a>,
    o: NamedView<'a>,
    o_list: LentList<'a>,
    p: NamedView<'a>,
    p_list: LentList<'a>,
) -> Values<'a>
    ensures { pairs_of result
        ≡ pair_with a.entry a_list.entry ∷ pair_with b.entry b_list.entry
        ∷ pair_with c.entry c_list.entry ∷ pair_with d.entry d_list.entry
        ∷ pair_with e.entry e_list.entry ∷ pair_with f.entry f_list.entry
        ∷ pair_with g.entry g_list.entry ∷ pair_with h.entry h_list.entry
        ∷ pair_with i.entry i_list.entry ∷ pair_with j.entry j_list.entry
        ∷ pair_with k.entry k_list.entry ∷ pair_with l.entry l_list.entry
        ∷ pair_with m.entry m_list.entry ∷ pair_with n.entry n_list.entry
        ∷ pair_with o.entry o_list.entry ∷ pair_with p.entry p_list.entry ∷ [] }
{
    row!(
        16; a a_list, b b_list, c c_list, d d_list, e e_list, f f_list, g g_list, h h_list,
        i i_list, j j_list, k k_list, l l_list, m m_list, n n_list, o o_list, p p_list
    )
}
