//! Arrays of views at one lifetime, for lists.
ghost use Rattle.std.specs.Prelude.{◌≡◌, [], ◌∷◌};

use interpolator_render::View;

/// An array of one view.
#[inline(always)]
pub fn views_1<'a>(a: View<'a>) -> [View<'a>; 1]
    ensures { result ≡ a.entry ∷ [] }
{
    [a]
}

/// An array of two views.
#[inline(always)]
pub fn views_2<'a>(a: View<'a>, b: View<'a>) -> [View<'a>; 2]
    ensures { result ≡ a.entry ∷ b.entry ∷ [] }
{
    [a, b]
}

/// An array of three views.
#[inline(always)]
pub fn views_3<'a>(a: View<'a>, b: View<'a>, c: View<'a>) -> [View<'a>; 3]
    ensures { result ≡ a.entry ∷ b.entry ∷ c.entry ∷ [] }
{
    [a, b, c]
}

/// An array of four views.
#[inline(always)]
pub fn views_4<'a>(a: View<'a>, b: View<'a>, c: View<'a>, d: View<'a>) -> [View<'a>; 4]
    ensures { result ≡ a.entry ∷ b.entry ∷ c.entry ∷ d.entry ∷ [] }
{
    [a, b, c, d]
}

/// An array of five views.
#[inline(always)]
pub fn views_5<'a>(a: View<'a>, b: View<'a>, c: View<'a>, d: View<'a>, e: View<'a>) -> [View<'a>; 5]
    ensures { result ≡ a.entry ∷ b.entry ∷ c.entry ∷ d.entry ∷ e.entry ∷ [] }
{
    [a, b, c, d, e]
}

/// An array of six views.
#[inline(always)]
pub fn views_6<'a>(
    a: View<'a>,
    b: View<'a>,
    c: View<'a>,
    d: View<'a>,
    e: View<'a>,
    f: View<'a>,
) -> [View<'a>; 6]
    ensures { result ≡ a.entry ∷ b.entry ∷ c.entry ∷ d.entry ∷ e.entry ∷ f.entry ∷ [] }
{
    [a, b, c, d, e, f]
}

/// An array of seven views.
#[inline(always)]
pub fn views_7<'a>(
    a: View<'a>,
    b: View<'a>,
    c: View<'a>,
    d: View<'a>,
    e: View<'a>,
    f: View<'a>,
    g: View<'a>,
) -> [View<'a>; 7]
    ensures { result ≡ a.entry ∷ b.entry ∷ c.entry ∷ d.entry ∷ e.entry ∷ f.entry ∷ g.entry ∷ [] }
{
    [a, b, c, d, e, f, g]
}

/// An array of eight views.
#[inline(always)]
pub fn views_8<'a>(
    a: View<'a>,
    b: View<'a>,
    c: View<'a>,
    d: View<'a>,
    e: View<'a>,
    f: View<'a>,
    g: View<'a>,
    h: View<'a>,
) -> [View<'a>; 8]
    ensures { result ≡ a.entry ∷ b.entry ∷ c.entry ∷ d.entry ∷ e.entry ∷ f.entry ∷ g.entry ∷
        h.entry ∷ [] }
{
    [a, b, c, d, e, f, g, h]
}

/// An array of nine views.
#[inline(always)]
pub fn views_9<'a>(
    a: View<'a>,
    b: View<'a>,
    c: View<'a>,
    d: View<'a>,
    e: View<'a>,
    f: View<'a>,
    g: View<'a>,
    h: View<'a>,
    i: View<'a>,
) -> [View<'a>; 9]
    ensures { result ≡ a.entry ∷ b.entry ∷ c.entry ∷ d.entry ∷ e.entry ∷ f.entry ∷ g.entry ∷
        h.entry ∷ i.entry ∷ [] }
{
    [a, b, c, d, e, f, g, h, i]
}

/// An array of ten views.
#[inline(always)]
pub fn views_10<'a>(
    a: View<'a>,
    b: View<'a>,
    c: View<'a>,
    d: View<'a>,
    e: View<'a>,
    f: View<'a>,
    g: View<'a>,
    h: View<'a>,
    i: View<'a>,
    j: View<'a>,
) -> [View<'a>; 10]
    ensures { result ≡ a.entry ∷ b.entry ∷ c.entry ∷ d.entry ∷ e.entry ∷ f.entry ∷ g.entry ∷
        h.entry ∷ i.entry ∷ j.entry ∷ [] }
{
    [a, b, c, d, e, f, g, h, i, j]
}

/// An array of eleven views.
#[inline(always)]
pub fn views_11<'a>(
    a: View<'a>,
    b: View<'a>,
    c: View<'a>,
    d: View<'a>,
    e: View<'a>,
    f: View<'a>,
    g: View<'a>,
    h: View<'a>,
    i: View<'a>,
    j: View<'a>,
    k: View<'a>,
) -> [View<'a>; 11]
    ensures { result ≡ a.entry ∷ b.entry ∷ c.entry ∷ d.entry ∷ e.entry ∷ f.entry ∷ g.entry ∷
        h.entry ∷ i.entry ∷ j.entry ∷ k.entry ∷ [] }
{
    [a, b, c, d, e, f, g, h, i, j, k]
}

/// An array of twelve views.
#[inline(always)]
pub fn views_12<'a>(
    a: View<'a>,
    b: View<'a>,
    c: View<'a>,
    d: View<'a>,
    e: View<'a>,
    f: View<'a>,
    g: View<'a>,
    h: View<'a>,
    i: View<'a>,
    j: View<'a>,
    k: View<'a>,
    l: View<'a>,
) -> [View<'a>; 12]
    ensures { result ≡ a.entry ∷ b.entry ∷ c.entry ∷ d.entry ∷ e.entry ∷ f.entry ∷ g.entry ∷
        h.entry ∷ i.entry ∷ j.entry ∷ k.entry ∷ l.entry ∷ [] }
{
    [a, b, c, d, e, f, g, h, i, j, k, l]
}

/// An array of thirteen views.
#[inline(always)]
pub fn views_13<'a>(
    a: View<'a>,
    b: View<'a>,
    c: View<'a>,
    d: View<'a>,
    e: View<'a>,
    f: View<'a>,
    g: View<'a>,
    h: View<'a>,
    i: View<'a>,
    j: View<'a>,
    k: View<'a>,
    l: View<'a>,
    m: View<'a>,
) -> [View<'a>; 13]
    ensures { result ≡ a.entry ∷ b.entry ∷ c.entry ∷ d.entry ∷ e.entry ∷ f.entry ∷ g.entry ∷
        h.entry ∷ i.entry ∷ j.entry ∷ k.entry ∷ l.entry ∷ m.entry ∷ [] }
{
    [a, b, c, d, e, f, g, h, i, j, k, l, m]
}

/// An array of fourteen views.
#[inline(always)]
pub fn views_14<'a>(
    a: View<'a>,
    b: View<'a>,
    c: View<'a>,
    d: View<'a>,
    e: View<'a>,
    f: View<'a>,
    g: View<'a>,
    h: View<'a>,
    i: View<'a>,
    j: View<'a>,
    k: View<'a>,
    l: View<'a>,
    m: View<'a>,
    n: View<'a>,
) -> [View<'a>; 14]
    ensures { result ≡ a.entry ∷ b.entry ∷ c.entry ∷ d.entry ∷ e.entry ∷ f.entry ∷ g.entry ∷
        h.entry ∷ i.entry ∷ j.entry ∷ k.entry ∷ l.entry ∷ m.entry ∷ n.entry ∷ [] }
{
    [a, b, c, d, e, f, g, h, i, j, k, l, m, n]
}

/// An array of fifteen views.
#[inline(always)]
pub fn views_15<'a>(
    a: View<'a>,
    b: View<'a>,
    c: View<'a>,
    d: View<'a>,
    e: View<'a>,
    f: View<'a>,
    g: View<'a>,
    h: View<'a>,
    i: View<'a>,
    j: View<'a>,
    k: View<'a>,
    l: View<'a>,
    m: View<'a>,
    n: View<'a>,
    o: View<'a>,
) -> [View<'a>; 15]
    ensures { result ≡ a.entry ∷ b.entry ∷ c.entry ∷ d.entry ∷ e.entry ∷ f.entry ∷ g.entry ∷
        h.entry ∷ i.entry ∷ j.entry ∷ k.entry ∷ l.entry ∷ m.entry ∷ n.entry ∷ o.entry ∷ [] }
{
    [a, b, c, d, e, f, g, h, i, j, k, l, m, n, o]
}

/// An array of sixteen views.
#[inline(always)]
pub fn views_16<'a>(
    a: View<'a>,
    b: View<'a>,
    c: View<'a>,
    d: View<'a>,
    e: View<'a>,
    f: View<'a>,
    g: View<'a>,
    h: View<'a>,
    i: View<'a>,
    j: View<'a>,
    k: View<'a>,
    l: View<'a>,
    m: View<'a>,
    n: View<'a>,
    o: View<'a>,
    p: View<'a>,
) -> [View<'a>; 16]
    ensures { result ≡ a.entry ∷ b.entry ∷ c.entry ∷ d.entry ∷ e.entry ∷ f.entry ∷ g.entry ∷
        h.entry ∷ i.entry ∷ j.entry ∷ k.entry ∷ l.entry ∷ m.entry ∷ n.entry ∷ o.entry ∷ p.entry ∷
        [] }
{
    [a, b, c, d, e, f, g, h, i, j, k, l, m, n, o, p]
}
