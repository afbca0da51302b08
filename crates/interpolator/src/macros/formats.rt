//! A format and its named values in one call: made or written.

/// The text of a format with named values: `format` of [`values!`](crate::values).
///
/// ```text
/// iformat!(in alloc; "{a}, {b:?}", a = 10u8, b:? = "test")?    // 10, "test"
/// ```
///
/// # Errors
///
/// The format's first fault, or `NoMemory`.
#[macro_export]
macro_rules! iformat {
    (in $alloc:expr; $format:expr $(, $($named:tt)*)?) => {
        $crate::Interpolate::format(&$crate::values!($($($named)*)?), $alloc, $format)
    };
    ($($other:tt)*) => {
        compile_error!("`iformat!` takes an allocator first: `iformat!(in alloc; \"{n}\", n)?`")
    };
}

/// Writes a format with named values: `write_to` of [`values!`](crate::values).
///
/// ```text
/// iwrite!(in alloc; &mut out, "{n:>5}", n)?    // with 7, appends "    7"
/// ```
///
/// # Errors
///
/// The format's first fault; `Fmt` if the writer refuses; `NoMemory`.
#[macro_export]
macro_rules! iwrite {
    (in $alloc:expr; $out:expr, $format:expr $(, $($named:tt)*)?) => {
        $crate::Interpolate::write_to(&$crate::values!($($($named)*)?), $alloc, $out, $format)
    };
    ($($other:tt)*) => {
        compile_error!("write `iwrite!(in alloc; &mut out, \"{n}\", n)?`")
    };
}

/// Writes a format with named values, and a newline after it if there is no fault: `write_line_to`
/// of [`values!`](crate::values).
///
/// ```text
/// iwriteln!(in alloc; &mut out, "{n:>5}", n)?    // with 7, appends "    7\n"
/// ```
///
/// # Errors
///
/// Those of [`iwrite!`](crate::iwrite); `Fmt` at place 0 if the writer refuses the newline alone.
#[macro_export]
macro_rules! iwriteln {
    (in $alloc:expr; $out:expr, $format:expr $(, $($named:tt)*)?) => {
        $crate::Interpolate::write_line_to(&$crate::values!($($($named)*)?), $alloc, $out, $format)
    };
    ($($other:tt)*) => {
        compile_error!("write `iwriteln!(in alloc; &mut out, \"{n}\", n)?`")
    };
}
