//! Contexts of named values, and how their names are read.

/// A context of at most sixteen names, a [`Values`](crate::Values), which takes no memory.
///
/// `name` stands for the variable of this name, `name = value` for a value, and `name:i = items`
/// for a list. Before the `=`, each `:` and a trait fill a slot: `?`, `x`, `X`, `o`, `b`, `e`, `E`,
/// or words such as `lower_hex`; `debug_display`, `integer` and `float` fill several; `:` alone or
/// no trait fills the display slot. Write `: :?` with a space, since `::` is one token.
///
/// If a name occurs more than once, its last value counts.
///
/// ```text
/// values!(name, n = apples).format(alloc, "{name} has {n}")?    // with `Ann` and 3: Ann has 3
/// values!(a:?:x = 255u8).format(alloc, "{a:?} {a:x}")?          // 255 ff
/// values!(a: :? = "b").format(alloc, "{a} {a:?}")?              // b "b"
/// ```
#[macro_export]
macro_rules! values {
    ($($named:tt)*) => {
        $crate::read_values!(values [] $($named)*)
    };
}

/// A [`ContextMap`](crate::ContextMap) of names, written as for [`values!`](crate::values). It
/// borrows the values, which are of one type, such as [`View`](crate::View).
///
/// If a name occurs more than once, each occurrence fills its own slots; in a slot that is filled
/// twice, the last value counts.
///
/// ```text
/// let (name, apples) = (View::from("Ann"), View::from(3u8));
/// let map = context!(in alloc; name, n:integer = apples, name:? = apples)?;
/// map.format(alloc, "{name} has {n:>2}, {name:?}")?    // Ann has  3, 3
/// ```
///
/// # Errors
///
/// `NoMemory`.
#[macro_export]
macro_rules! context {
    (in $alloc:expr; $($named:tt)*) => {
        $crate::read_values!(context [$crate::made::no_names($alloc)] $($named)*)
    };
    ($($other:tt)*) => {
        compile_error!("`context!` takes an allocator first: `context!(in alloc; name, n = m)?`")
    };
}

/// Reads the names of [`values!`](crate::values) and of [`context!`](crate::context) one by one.
#[macro_export]
macro_rules! read_values {
    (values [$($made:expr),*]) => {
        $crate::values_of!($($made),*)
    };
    (context [$($made:expr),*]) => {
        $crate::lent_to!($($made),*)
    };
    ($to:ident [$($made:expr),*] $name:ident $($rest:tt)*) => {
        $crate::read_values!(@traits $to [$($made),*] $name [] $($rest)*)
    };
    (@traits $to:ident [$($made:expr),*] $name:ident [] : i = $items:expr $(, $($rest:tt)*)?) => {
        $crate::read_values!(
            $to [$($made,)* $crate::list_of!($to $name $items), $crate::items_of_list!($to $items)]
            $($($rest)*)?
        )
    };
    (
        @traits $to:ident [$($made:expr),*] $name:ident [] : iter = $items:expr $(, $($rest:tt)*)?
    ) => {
        $crate::read_values!(
            $to [$($made,)* $crate::list_of!($to $name $items), $crate::items_of_list!($to $items)]
            $($($rest)*)?
        )
    };
    (@traits $to:ident $made:tt $name:ident [$($slot:ident)*] : ? $($rest:tt)*) => {
        $crate::read_values!(@traits $to $made $name [$($slot)* Debug] $($rest)*)
    };
    (@traits $to:ident $made:tt $name:ident [$($slot:ident)*] : debug $($rest:tt)*) => {
        $crate::read_values!(@traits $to $made $name [$($slot)* Debug] $($rest)*)
    };
    (@traits $to:ident $made:tt $name:ident [$($slot:ident)*] : x $($rest:tt)*) => {
        $crate::read_values!(@traits $to $made $name [$($slot)* LowerHex] $($rest)*)
    };
    (@traits $to:ident $made:tt $name:ident [$($slot:ident)*] : lower_hex $($rest:tt)*) => {
        $crate::read_values!(@traits $to $made $name [$($slot)* LowerHex] $($rest)*)
    };
    (@traits $to:ident $made:tt $name:ident [$($slot:ident)*] : X $($rest:tt)*) => {
        $crate::read_values!(@traits $to $made $name [$($slot)* UpperHex] $($rest)*)
    };
    (@traits $to:ident $made:tt $name:ident [$($slot:ident)*] : upper_hex $($rest:tt)*) => {
        $crate::read_values!(@traits $to $made $name [$($slot)* UpperHex] $($rest)*)
    };
    (@traits $to:ident $made:tt $name:ident [$($slot:ident)*] : o $($rest:tt)*) => {
        $crate::read_values!(@traits $to $made $name [$($slot)* Octal] $($rest)*)
    };
    (@traits $to:ident $made:tt $name:ident [$($slot:ident)*] : octal $($rest:tt)*) => {
        $crate::read_values!(@traits $to $made $name [$($slot)* Octal] $($rest)*)
    };
    (@traits $to:ident $made:tt $name:ident [$($slot:ident)*] : b $($rest:tt)*) => {
        $crate::read_values!(@traits $to $made $name [$($slot)* Binary] $($rest)*)
    };
    (@traits $to:ident $made:tt $name:ident [$($slot:ident)*] : binary $($rest:tt)*) => {
        $crate::read_values!(@traits $to $made $name [$($slot)* Binary] $($rest)*)
    };
    (@traits $to:ident $made:tt $name:ident [$($slot:ident)*] : e $($rest:tt)*) => {
        $crate::read_values!(@traits $to $made $name [$($slot)* LowerExp] $($rest)*)
    };
    (@traits $to:ident $made:tt $name:ident [$($slot:ident)*] : lower_exp $($rest:tt)*) => {
        $crate::read_values!(@traits $to $made $name [$($slot)* LowerExp] $($rest)*)
    };
    (@traits $to:ident $made:tt $name:ident [$($slot:ident)*] : E $($rest:tt)*) => {
        $crate::read_values!(@traits $to $made $name [$($slot)* UpperExp] $($rest)*)
    };
    (@traits $to:ident $made:tt $name:ident [$($slot:ident)*] : upper_exp $($rest:tt)*) => {
        $crate::read_values!(@traits $to $made $name [$($slot)* UpperExp] $($rest)*)
    };
    (@traits $to:ident $made:tt $name:ident [$($slot:ident)*] : debug_display $($rest:tt)*) => {
        $crate::read_values!(@traits $to $made $name [$($slot)* Debug Display] $($rest)*)
    };
    (@traits $to:ident $made:tt $name:ident [$($slot:ident)*] : float $($rest:tt)*) => {
        $crate::read_values!(
            @traits $to $made $name [$($slot)* Debug Display LowerExp UpperExp] $($rest)*
        )
    };
    (@traits $to:ident $made:tt $name:ident [$($slot:ident)*] : integer $($rest:tt)*) => {
        $crate::read_values!(
            @traits $to $made $name
            [$($slot)* Debug Display Binary Octal LowerHex UpperHex LowerExp UpperExp] $($rest)*
        )
    };
    (@traits $to:ident $made:tt $name:ident [$($slot:ident)*] : display $($rest:tt)*) => {
        $crate::read_values!(@traits $to $made $name [$($slot)* Display] $($rest)*)
    };
    (@traits $to:ident $made:tt $name:ident [$($slot:ident)*] : $($rest:tt)*) => {
        $crate::read_values!(@traits $to $made $name [$($slot)* Display] $($rest)*)
    };
    (@traits $to:ident $made:tt $name:ident [] $($rest:tt)*) => {
        $crate::read_values!(@traits $to $made $name [Display] $($rest)*)
    };
    (@traits $to:ident [$($made:expr),*] $name:ident $slots:tt = $value:expr $(, $($rest:tt)*)?) => {
        $crate::read_values!(
            $to [$($made,)* $crate::named_of!($to $name $slots $value), $crate::no_items!($to)]
            $($($rest)*)?
        )
    };
    (@traits $to:ident [$($made:expr),*] $name:ident $slots:tt $(, $($rest:tt)*)?) => {
        $crate::read_values!(
            $to [$($made,)* $crate::named_of!($to $name $slots $name), $crate::no_items!($to)]
            $($($rest)*)?
        )
    };
    ($($other:tt)*) => {
        compile_error!("write a name, its traits and its value, as `name`, `n:?` or `n:x = 5u8`")
    };
}

/// A value under a name, in the slots of these traits.
#[macro_export]
macro_rules! named_of {
    (values $name:ident [$($slot:ident)*] $value:expr) => {
        $crate::made::named_value(
            stringify!($name),
            $crate::View::from($value),
            &[$($crate::Trait::$slot),*],
        )
    };
    (context $name:ident [$($slot:ident)*] $value:expr) => {
        $crate::made::lent_value(stringify!($name), &$value, &[$($crate::Trait::$slot),*])
    };
}

/// A map with what is lent added to it.
#[macro_export]
macro_rules! lent_to {
    ($map:expr) => {
        $map
    };
    ($map:expr, $lent:expr, $items:expr $(, $more:expr)*) => {
        $crate::lent_to!($crate::made::and_lent($map, $lent) $(, $more)*)
    };
}

/// The name of a list. In a row its items stand beside it.
#[macro_export]
macro_rules! list_of {
    (values $name:ident $items:expr) => {
        $crate::made::named_list(stringify!($name))
    };
    (context $name:ident $items:expr) => {
        $crate::made::lent_list(stringify!($name), $items)
    };
}

/// The items of a list, beside its name in a row.
#[macro_export]
macro_rules! items_of_list {
    (values $items:expr) => {
        $crate::made::lent_list_items($items)
    };
    (context $items:expr) => {
        ()
    };
}

/// No items, beside a value in a row.
#[macro_export]
macro_rules! no_items {
    (values) => {
        $crate::made::no_list()
    };
    (context) => {
        ()
    };
}

/// A row of as many named values as are given, each with its list or none.
#[macro_export]
macro_rules! values_of {
    () => {
        $crate::made::values_0()
    };
    ($a:expr, $a_list:expr) => {
        $crate::made::values_1($a, $a_list)
    };
    ($a:expr, $a_list:expr, $b:expr, $b_list:expr) => {
        $crate::made::values_2($a, $a_list, $b, $b_list)
    };
    ($a:expr, $a_list:expr, $b:expr, $b_list:expr, $c:expr, $c_list:expr) => {
        $crate::made::values_3($a, $a_list, $b, $b_list, $c, $c_list)
    };
    (
        $a:expr, $a_list:expr, $b:expr, $b_list:expr, $c:expr, $c_list:expr,
        $d:expr, $d_list:expr
    ) => {
        $crate::made::values_4($a, $a_list, $b, $b_list, $c, $c_list, $d, $d_list)
    };
    (
        $a:expr, $a_list:expr, $b:expr, $b_list:expr, $c:expr, $c_list:expr,
        $d:expr, $d_list:expr, $e:expr, $e_list:expr
    ) => {
        $crate::made::values_5($a, $a_list, $b, $b_list, $c, $c_list, $d, $d_list, $e, $e_list)
    };
    (
        $a:expr, $a_list:expr, $b:expr, $b_list:expr, $c:expr, $c_list:expr,
        $d:expr, $d_list:expr, $e:expr, $e_list:expr, $f:expr, $f_list:expr
    ) => {
        $crate::made::values_6(
            $a, $a_list, $b, $b_list, $c, $c_list, $d, $d_list, $e, $e_list, $f, $f_list
        )
    };
    (
        $a:expr, $a_list:expr, $b:expr, $b_list:expr, $c:expr, $c_list:expr,
        $d:expr, $d_list:expr, $e:expr, $e_list:expr, $f:expr, $f_list:expr,
        $g:expr, $g_list:expr
    ) => {
        $crate::made::values_7(
            $a, $a_list, $b, $b_list, $c, $c_list, $d, $d_list, $e, $e_list, $f, $f_list,
            $g, $g_list
        )
    };
    (
        $a:expr, $a_list:expr, $b:expr, $b_list:expr, $c:expr, $c_list:expr,
        $d:expr, $d_list:expr, $e:expr, $e_list:expr, $f:expr, $f_list:expr,
        $g:expr, $g_list:expr, $h:expr, $h_list:expr
    ) => {
        $crate::made::values_8(
            $a, $a_list, $b, $b_list, $c, $c_list, $d, $d_list, $e, $e_list, $f, $f_list,
            $g, $g_list, $h, $h_list
        )
    };
    (
        $a:expr, $a_list:expr, $b:expr, $b_list:expr, $c:expr, $c_list:expr,
        $d:expr, $d_list:expr, $e:expr, $e_list:expr, $f:expr, $f_list:expr,
        $g:expr, $g_list:expr, $h:expr, $h_list:expr, $i:expr, $i_list:expr
    ) => {
        $crate::made::values_9(
            $a, $a_list, $b, $b_list, $c, $c_list, $d, $d_list, $e, $e_list, $f, $f_list,
            $g, $g_list, $h, $h_list, $i, $i_list
        )
    };
    (
        $a:expr, $a_list:expr, $b:expr, $b_list:expr, $c:expr, $c_list:expr,
        $d:expr, $d_list:expr, $e:expr, $e_list:expr, $f:expr, $f_list:expr,
        $g:expr, $g_list:expr, $h:expr, $h_list:expr, $i:expr, $i_list:expr,
        $j:expr, $j_list:expr
    ) => {
        $crate::made::values_10(
            $a, $a_list, $b, $b_list, $c, $c_list, $d, $d_list, $e, $e_list, $f, $f_list,
            $g, $g_list, $h, $h_list, $i, $i_list, $j, $j_list
        )
    };
    (
        $a:expr, $a_list:expr, $b:expr, $b_list:expr, $c:expr, $c_list:expr,
        $d:expr, $d_list:expr, $e:expr, $e_list:expr, $f:expr, $f_list:expr,
        $g:expr, $g_list:expr, $h:expr, $h_list:expr, $i:expr, $i_list:expr,
        $j:expr, $j_list:expr, $k:expr, $k_list:expr
    ) => {
        $crate::made::values_11(
            $a, $a_list, $b, $b_list, $c, $c_list, $d, $d_list, $e, $e_list, $f, $f_list,
            $g, $g_list, $h, $h_list, $i, $i_list, $j, $j_list, $k, $k_list
        )
    };
    (
        $a:expr, $a_list:expr, $b:expr, $b_list:expr, $c:expr, $c_list:expr,
        $d:expr, $d_list:expr, $e:expr, $e_list:expr, $f:expr, $f_list:expr,
        $g:expr, $g_list:expr, $h:expr, $h_list:expr, $i:expr, $i_list:expr,
        $j:expr, $j_list:expr, $k:expr, $k_list:expr, $l:expr, $l_list:expr
    ) => {
        $crate::made::values_12(
            $a, $a_list, $b, $b_list, $c, $c_list, $d, $d_list, $e, $e_list, $f, $f_list,
            $g, $g_list, $h, $h_list, $i, $i_list, $j, $j_list, $k, $k_list, $l, $l_list
        )
    };
    (
        $a:expr, $a_list:expr, $b:expr, $b_list:expr, $c:expr, $c_list:expr,
        $d:expr, $d_list:expr, $e:expr, $e_list:expr, $f:expr, $f_list:expr,
        $g:expr, $g_list:expr, $h:expr, $h_list:expr, $i:expr, $i_list:expr,
        $j:expr, $j_list:expr, $k:expr, $k_list:expr, $l:expr, $l_list:expr,
        $m:expr, $m_list:expr
    ) => {
        $crate::made::values_13(
            $a, $a_list, $b, $b_list, $c, $c_list, $d, $d_list, $e, $e_list, $f, $f_list,
            $g, $g_list, $h, $h_list, $i, $i_list, $j, $j_list, $k, $k_list, $l, $l_list,
            $m, $m_list
        )
    };
    (
        $a:expr, $a_list:expr, $b:expr, $b_list:expr, $c:expr, $c_list:expr,
        $d:expr, $d_list:expr, $e:expr, $e_list:expr, $f:expr, $f_list:expr,
        $g:expr, $g_list:expr, $h:expr, $h_list:expr, $i:expr, $i_list:expr,
        $j:expr, $j_list:expr, $k:expr, $k_list:expr, $l:expr, $l_list:expr,
        $m:expr, $m_list:expr, $n:expr, $n_list:expr
    ) => {
        $crate::made::values_14(
            $a, $a_list, $b, $b_list, $c, $c_list, $d, $d_list, $e, $e_list, $f, $f_list,
            $g, $g_list, $h, $h_list, $i, $i_list, $j, $j_list, $k, $k_list, $l, $l_list,
            $m, $m_list, $n, $n_list
        )
    };
    (
        $a:expr, $a_list:expr, $b:expr, $b_list:expr, $c:expr, $c_list:expr,
        $d:expr, $d_list:expr, $e:expr, $e_list:expr, $f:expr, $f_list:expr,
        $g:expr, $g_list:expr, $h:expr, $h_list:expr, $i:expr, $i_list:expr,
        $j:expr, $j_list:expr, $k:expr, $k_list:expr, $l:expr, $l_list:expr,
        $m:expr, $m_list:expr, $n:expr, $n_list:expr, $o:expr, $o_list:expr
    ) => {
        $crate::made::values_15(
            $a, $a_list, $b, $b_list, $c, $c_list, $d, $d_list, $e, $e_list, $f, $f_list,
            $g, $g_list, $h, $h_list, $i, $i_list, $j, $j_list, $k, $k_list, $l, $l_list,
            $m, $m_list, $n, $n_list, $o, $o_list
        )
    };
    (
        $a:expr, $a_list:expr, $b:expr, $b_list:expr, $c:expr, $c_list:expr,
        $d:expr, $d_list:expr, $e:expr, $e_list:expr, $f:expr, $f_list:expr,
        $g:expr, $g_list:expr, $h:expr, $h_list:expr, $i:expr, $i_list:expr,
        $j:expr, $j_list:expr, $k:expr, $k_list:expr, $l:expr, $l_list:expr,
        $m:expr, $m_list:expr, $n:expr, $n_list:expr, $o:expr, $o_list:expr,
        $p:expr, $p_list:expr
    ) => {
        $crate::made::values_16(
            $a, $a_list, $b, $b_list, $c, $c_list, $d, $d_list, $e, $e_list, $f, $f_list,
            $g, $g_list, $h, $h_list, $i, $i_list, $j, $j_list, $k, $k_list, $l, $l_list,
            $m, $m_list, $n, $n_list, $o, $o_list, $p, $p_list
        )
    };
    ($($more:expr),*) => {
        compile_error!("a row has at most sixteen names: use a `ContextMap`")
    };
}
