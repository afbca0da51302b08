//! The words that files use for things with a name.

use interpolator::{Alignment, HexDebug, NumberError, PieceKind, Sign, Trait};

pub const TRAITS: [(&str, Trait); 9] = [
    ("debug", Trait::Debug),
    ("display", Trait::Display),
    ("binary", Trait::Binary),
    ("lower_exp", Trait::LowerExp),
    ("lower_hex", Trait::LowerHex),
    ("octal", Trait::Octal),
    ("upper_exp", Trait::UpperExp),
    ("upper_hex", Trait::UpperHex),
    ("iter", Trait::Iter),
];

/// Slots that are filled together.
#[derive(Clone, Copy)]
pub enum Slots {
    DebugDisplay,
    Integer,
    Float,
    Debug,
    Display,
    Binary,
    LowerExp,
    LowerHex,
    Octal,
    UpperExp,
    UpperHex,
}

pub const SLOTS: [(&str, Slots); 11] = [
    ("debug_display", Slots::DebugDisplay),
    ("integer", Slots::Integer),
    ("float", Slots::Float),
    ("debug", Slots::Debug),
    ("display", Slots::Display),
    ("binary", Slots::Binary),
    ("lower_exp", Slots::LowerExp),
    ("lower_hex", Slots::LowerHex),
    ("octal", Slots::Octal),
    ("upper_exp", Slots::UpperExp),
    ("upper_hex", Slots::UpperHex),
];

pub const ALIGNMENTS: [(&str, Alignment); 3] = [
    ("<", Alignment::Left),
    ("^", Alignment::Center),
    (">", Alignment::Right),
];

pub const SIGNS: [(&str, Sign); 2] = [("+", Sign::Plus), ("-", Sign::Minus)];

pub const HEX_DEBUGS: [(&str, HexDebug); 2] = [("x?", HexDebug::Lower), ("X?", HexDebug::Upper)];

pub const NUMBER_FAULTS: [(&str, NumberError); 4] = [
    ("Empty", NumberError::Empty),
    ("InvalidDigit", NumberError::InvalidDigit),
    ("PosOverflow", NumberError::PosOverflow),
    ("NegOverflow", NumberError::NegOverflow),
];

pub const PIECE_KINDS: [(&str, PieceKind); 6] = [
    ("literal", PieceKind::Literal),
    ("doubled", PieceKind::Doubled),
    ("lone_close", PieceKind::LoneClose),
    ("closed", PieceKind::Closed),
    ("unclosed", PieceKind::Unclosed),
    ("broken", PieceKind::Broken),
];

pub const TRUTHS: [(&str, bool); 2] = [("true", true), ("false", false)];

/// What a word stands for in a table.
pub fn named<T: Copy>(table: &[(&str, T)], word: &str) -> Option<T> {
    for (name, one) in table {
        if *name == word {
            return Some(*one);
        }
    }
    None
}
