//! Arrays of views, for lists.

/// An array of views at one lifetime, for a list of at most sixteen values of several kinds.
///
/// ```text
/// let cells = list!["one", name, 3u8];
/// let items = items_of(alloc, &cells)?;
/// values!(l:i = &items).format(alloc, "{l:i..-1({})(, )} and {l:i-1}")?    // one, Ann and 3
/// ```
#[macro_export]
macro_rules! list {
    ($($value:expr),+ $(,)?) => {
        $crate::views_of!($($crate::View::from($value)),+)
    };
    () => {
        compile_error!("`list!` takes at least one value: for a list without items write `&[]`")
    };
    ($($other:tt)*) => {
        compile_error!("`list!` takes values without traits: `items_of` fills every slot")
    };
}

/// An array of as many views as are given.
#[macro_export]
macro_rules! views_of {
    ($a:expr) => {
        $crate::made::views_1($a)
    };
    ($a:expr, $b:expr) => {
        $crate::made::views_2($a, $b)
    };
    ($a:expr, $b:expr, $c:expr) => {
        $crate::made::views_3($a, $b, $c)
    };
    ($a:expr, $b:expr, $c:expr, $d:expr) => {
        $crate::made::views_4($a, $b, $c, $d)
    };
    ($a:expr, $b:expr, $c:expr, $d:expr, $e:expr) => {
        $crate::made::views_5($a, $b, $c, $d, $e)
    };
    ($a:expr, $b:expr, $c:expr, $d:expr, $e:expr, $f:expr) => {
        $crate::made::views_6($a, $b, $c, $d, $e, $f)
    };
    ($a:expr, $b:expr, $c:expr, $d:expr, $e:expr, $f:expr, $g:expr) => {
        $crate::made::views_7($a, $b, $c, $d, $e, $f, $g)
    };
    ($a:expr, $b:expr, $c:expr, $d:expr, $e:expr, $f:expr, $g:expr, $h:expr) => {
        $crate::made::views_8($a, $b, $c, $d, $e, $f, $g, $h)
    };
    ($a:expr, $b:expr, $c:expr, $d:expr, $e:expr, $f:expr, $g:expr, $h:expr, $i:expr) => {
        $crate::made::views_9($a, $b, $c, $d, $e, $f, $g, $h, $i)
    };
    ($a:expr, $b:expr, $c:expr, $d:expr, $e:expr, $f:expr, $g:expr, $h:expr, $i:expr, $j:expr) => {
        $crate::made::views_10($a, $b, $c, $d, $e, $f, $g, $h, $i, $j)
    };
    (
        $a:expr, $b:expr, $c:expr, $d:expr, $e:expr, $f:expr, $g:expr, $h:expr,
        $i:expr, $j:expr, $k:expr
    ) => {
        $crate::made::views_11($a, $b, $c, $d, $e, $f, $g, $h, $i, $j, $k)
    };
    (
        $a:expr, $b:expr, $c:expr, $d:expr, $e:expr, $f:expr, $g:expr, $h:expr,
        $i:expr, $j:expr, $k:expr, $l:expr
    ) => {
        $crate::made::views_12($a, $b, $c, $d, $e, $f, $g, $h, $i, $j, $k, $l)
    };
    (
        $a:expr, $b:expr, $c:expr, $d:expr, $e:expr, $f:expr, $g:expr, $h:expr,
        $i:expr, $j:expr, $k:expr, $l:expr, $m:expr
    ) => {
        $crate::made::views_13($a, $b, $c, $d, $e, $f, $g, $h, $i, $j, $k, $l, $m)
    };
    (
        $a:expr, $b:expr, $c:expr, $d:expr, $e:expr, $f:expr, $g:expr, $h:expr,
        $i:expr, $j:expr, $k:expr, $l:expr, $m:expr, $n:expr
    ) => {
        $crate::made::views_14($a, $b, $c, $d, $e, $f, $g, $h, $i, $j, $k, $l, $m, $n)
    };
    (
        $a:expr, $b:expr, $c:expr, $d:expr, $e:expr, $f:expr, $g:expr, $h:expr,
        $i:expr, $j:expr, $k:expr, $l:expr, $m:expr, $n:expr, $o:expr
    ) => {
        $crate::made::views_15($a, $b, $c, $d, $e, $f, $g, $h, $i, $j, $k, $l, $m, $n, $o)
    };
    (
        $a:expr, $b:expr, $c:expr, $d:expr, $e:expr, $f:expr, $g:expr, $h:expr,
        $i:expr, $j:expr, $k:expr, $l:expr, $m:expr, $n:expr, $o:expr, $p:expr
    ) => {
        $crate::made::views_16($a, $b, $c, $d, $e, $f, $g, $h, $i, $j, $k, $l, $m, $n, $o, $p)
    };
    ($($more:expr),*) => {
        compile_error!("`list!` takes at most sixteen values: use a `Vec` of `View`s")
    };
}
