//! Reading a command of a POSIX shell.
ghost use Rattle.std.specs.Prelude.{◌≡◌, false};
ghost use Rattle.interpolator_escapes.specs.Shell.{ShellState, begins_other, is_shell_place};
ghost use Rattle.interpolator_escapes.specs.Shell.{outside, shell_step, single_quoted};
ghost use Rattle.interpolator_escapes.specs.CodeReaders.{has_structure, shell_state};

use crate::readers::Reader;
use interpolator_render::{Spec, Trait};
use std::alloc::AllocError;

/// Where a reader of a command is. A value may stand between single quotes.
#[derive(Clone, Copy, Debug, PartialEq, Eq)]
pub enum ShellReader {
    /// Outside of quotes.
    Outside,
    /// After a backslash there.
    AfterSlash,
    /// Between single quotes.
    SingleQuoted,
    /// Behind a character in whose sight a single quote may be no quote.
    Elsewhere,
}

/// Tests for a character in whose sight a single quote may be no quote.
fn begins_other(c: char) -> bool
    ensures { result ≡ begins_other c }
{
    c == '"' || c == '#' || c == '$' || c == '(' || c == '<' || c == '[' || c == '`'
}

/// The state after a character outside of quotes, and whether it is structure.
fn after_outside(c: char) -> (ShellReader, bool)
    ensures state { shell_state result.0 ≡ (shell_step outside c).0 }
    ensures structure { result.1 ≡ has_structure (shell_step outside c).1 }
{
    if c == '\'' {
        return (ShellReader::SingleQuoted, false);
    }
    if c == '\\' {
        return (ShellReader::AfterSlash, false);
    }
    if begins_other(c) {
        return (ShellReader::Elsewhere, true);
    }
    (ShellReader::Outside, true)
}

/// The state after a character between single quotes, none of which is structure.
fn after_quoted(c: char) -> ShellReader
    ensures state { shell_state result ≡ (shell_step single_quoted c).0 }
    ensures structure { false ≡ has_structure (shell_step single_quoted c).1 }
{
    if c == '\'' {
        return ShellReader::Outside;
    }
    ShellReader::SingleQuoted
}

/// The state after a character, and whether it is structure.
fn after(state: ShellReader, c: char) -> (ShellReader, bool)
    ensures state { shell_state result.0 ≡ (shell_step (shell_state state) c).0 }
    ensures structure { result.1 ≡ has_structure (shell_step (shell_state state) c).1 }
{
    match state {
        ShellReader::Outside => after_outside(c),
        ShellReader::AfterSlash => (ShellReader::Outside, false),
        ShellReader::SingleQuoted => (after_quoted(c), false),
        ShellReader::Elsewhere => (ShellReader::Elsewhere, true),
    }
}

impl Reader for ShellReader {
    ghost State = { ShellState };

    ghost state = { shell_state };

    ghost step = { shell_step };

    ghost places = { is_shell_place };

    fn read(&mut self, c: char) -> Result<bool, AllocError> {
        let (state, is_structure) = after(*self, c);
        *self = state;
        Ok(is_structure)
    }

    fn is_place(&self, _wanted: Trait, _spec: &Spec) -> bool {
        match *self {
            ShellReader::SingleQuoted => true,
            _ => false,
        }
    }

    fn is_at(&self, other: &ShellReader) -> bool {
        *self == *other
    }

    fn copied(&self) -> Result<ShellReader, AllocError> {
        Ok(*self)
    }
}
