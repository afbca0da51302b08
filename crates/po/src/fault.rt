//! What is wrong with a file, and where.

ghost use Rattle.std.specs.Prelude.{◌≡◌};

use std::alloc::AllocError;

/// What is wrong at a place of a file.
#[derive(Clone, Copy, Debug, PartialEq, Eq)]
pub enum Problem {
    /// The line, or the file, ends within a string, or there is a NUL.
    Unclosed,
    /// A `\` begins no escape.
    Escape,
    /// A string is wanted here.
    Text,
    /// Another keyword is wanted here.
    Key,
}

impl Problem {
    /// What is wrong, in words.
    pub fn as_str(self) -> &'static str {
        match self {
            Problem::Unclosed => "a string ends on its line, and has no NUL",
            Problem::Escape => {
                "an escape is one of `\\n \\t \\r \\a \\b \\f \\v \\\\ \\\"`, or `\\001` to `\\177`"
            }
            Problem::Text => "a string is missing here",
            Problem::Key => {
                "an entry is `msgctxt` or none, `msgid`, and `msgstr`, or `msgid_plural` and \
                    `msgstr[0]`, `msgstr[1]`.., with no comment in it"
            }
        }
    }
}

/// What is wrong with a file, and where.
#[derive(Clone, Copy, Debug, PartialEq, Eq)]
pub struct Fault {
    /// The byte of the file.
    pub place: usize,
    pub problem: Problem,
}

/// Why a file is not read.
#[derive(Clone, Copy, Debug, PartialEq, Eq)]
pub enum ReadError {
    /// It is none.
    Broken(Fault),
    /// Memory ran out.
    NoMemory,
}

impl From<AllocError> for ReadError {
    ghost use Rattle.po.specs.declared.fault.ReadError.TheVariants.{NoMemory};

    ghost from_gives = { λ _ error. error ≡ NoMemory };

    fn from(_error: AllocError) -> Self {
        ReadError::NoMemory
    }
}

impl From<Fault> for ReadError {
    ghost use Rattle.po.specs.declared.fault.ReadError.TheVariants.{Broken};

    ghost from_gives = { λ fault error. error ≡ Broken fault };

    fn from(fault: Fault) -> Self {
        ReadError::Broken(fault)
    }
}
