//! What is to be written, and how: traits, specs and views.
ghost use Rattle.std.specs.Prelude.{◌≡◌};
ghost use Rattle.interpolator_render.specs.Views.{fits_signed};

/// A formatting trait: a way of writing a value.
#[derive(Clone, Copy, Debug, PartialEq, Eq)]
pub enum Trait {
    /// Whole numbers in base two.
    Binary,
    /// As a programmer reads it: texts and characters in quotes.
    Debug,
    /// As a user reads it.
    Display,
    /// Numbers in exponent form, with `e`.
    LowerExp,
    /// Whole numbers in base sixteen, with `a` to `f`.
    LowerHex,
    /// Whole numbers in base eight.
    Octal,
    /// Numbers in exponent form, with `E`.
    UpperExp,
    /// Whole numbers in base sixteen, with `A` to `F`.
    UpperHex,
    /// Item by item. Of all views only a plain one has a text under this trait.
    Iter,
}

/// Where a text stands among the copies of the fill that bring it to its width.
#[derive(Clone, Copy, Debug, Default, PartialEq, Eq)]
pub enum Alignment {
    /// Numbers on the right, all else on the left.
    #[default]
    Unset,
    /// All copies after the text.
    Left,
    /// Half of the copies, rounded down, before the text.
    Center,
    /// All copies before the text.
    Right,
}

/// The sign flag of a spec.
#[derive(Clone, Copy, Debug, Default, PartialEq, Eq)]
pub enum Sign {
    /// `-` before negative numbers alone.
    #[default]
    Unset,
    /// `+` before numbers that are not negative, too.
    Plus,
    /// `-`, which does the same as no flag.
    Minus,
}

/// Whether `Trait::Debug` writes whole numbers in base sixteen.
#[derive(Clone, Copy, Debug, Default, PartialEq, Eq)]
pub enum HexDebug {
    /// In base ten.
    #[default]
    No,
    /// In base sixteen, with `a` to `f`.
    Lower,
    /// In base sixteen, with `A` to `F`.
    Upper,
}

/// The width of a signed number's type, in bits.
#[derive(Clone, Copy, PartialEq, Eq, Debug)]
pub enum Bits {
    /// 8 bits, as of an `i8`.
    B8,
    /// 16 bits, as of an `i16`.
    B16,
    /// 32 bits, as of an `i32`.
    B32,
    /// 64 bits, as of an `i64`.
    B64,
    /// 128 bits, as of an `i128`.
    B128,
}

impl Bits {
    /// Whether a number lies in the range of signed numbers of this width.
    ///
    /// ```text
    /// Bits::B8.fits(-128)   // true
    /// Bits::B8.fits(128)    // false
    /// ```
    pub fn fits(self, number: i128) -> bool
        ensures { result ≡ fits_signed number self }
    {
        match self {
            Bits::B8 => i8::MIN as i128 <= number && number <= i8::MAX as i128,
            Bits::B16 => i16::MIN as i128 <= number && number <= i16::MAX as i128,
            Bits::B32 => i32::MIN as i128 <= number && number <= i32::MAX as i128,
            Bits::B64 => i64::MIN as i128 <= number && number <= i64::MAX as i128,
            Bits::B128 => true,
        }
    }
}

/// The fill, flags, width and precision under which a value is written. By default nothing is set.
///
/// ```text
/// let spec = Spec { zero: true, width: Some(6), ..Spec::default() };   // as `{:06}`
/// ```
#[derive(Clone, Copy, PartialEq, Eq, Debug, Default)]
pub struct Spec {
    /// What pads a value to its width; a space if there is none. It counts as one character,
    /// however many bytes it has.
    ///
    /// ```text
    /// let padded = Spec { fill: Some('é'), width: Some(4), ..Spec::default() };
    /// let spec = Spec { alignment: Alignment::Right, ..padded };      // as `{:é>4}`
    /// render(&mut out, View::Unsigned(12), Trait::Display, &spec)     // appends "éé12"
    /// ```
    pub fill: Option<char>,
    /// Where the text stands among the copies of its fill.
    pub alignment: Alignment,
    /// `+` or `-`.
    pub sign: Sign,
    /// `#`: a prefix before numbers in base two, eight and sixteen.
    pub alternate: bool,
    /// `0`: numbers are padded with zeros after their sign and prefix, whatever the fill and the
    /// alignment.
    pub zero: bool,
    /// The least number of characters.
    pub width: Option<usize>,
    /// For a text, the greatest number of its characters that are shown, before padding; for a
    /// decimal, a float and an exponent form, the number of digits after the point.
    pub precision: Option<usize>,
    /// How `Trait::Debug` writes whole numbers.
    pub hex_debug: HexDebug,
}

/// What a value shows under a trait and a spec: one number, one text or neither. Two views are equal
/// when their variants and fields are. So a NaN is not equal to itself, and 0.0 is equal to -0.0.
#[derive(Clone, Copy, Debug, PartialEq)]
pub enum View<'a> {
    /// A number of a signed type of this width. It lies in the range of that type.
    Signed(i128, Bits),
    /// A number of an unsigned type.
    Unsigned(u128),
    /// A truth value.
    Truth(bool),
    /// A decimal: this many units of 10 ^ -scale. 12.50 is 1250 units at the scale 2.
    Decimal {
        /// How many units.
        units: i128,
        /// How many digits of them are after the point.
        scale: u32,
    },
    /// A float. Without precision its text has the fewest digits that read back as it.
    Float(f64),
    /// A float of 32 bits, whose digits read back as one of as many.
    Float32(f32),
    /// One character.
    Character(char),
    /// A text.
    Text(&'a str),
    /// A text that is written as it is under every trait and spec.
    Plain(&'a str),
    /// Nothing, since the value has no text under this trait.
    NotImplemented,
    /// Nothing, since the value failed to make its text.
    Failed,
}

/// Why a view was not written.
#[derive(Clone, Copy, Debug, PartialEq, Eq)]
pub enum RenderFault {
    /// The view has no text under this trait. Nothing was written.
    NotImplemented,
    /// The value failed. Nothing was written.
    Failed,
    /// The writer refused. A prefix of the text was written, perhaps none of it.
    Refused,
}
