//! The flags of a command line, which stand before its other words.

ghost use Rattle.std.specs.Prelude.{◌≡◌, ◌<◌, IfSome, length};
ghost use Rattle.std.specs.Option.{option_map};
ghost use Rattle.words.specs.Flags.{AreAfter, IsEnd, after_end, files_in, has_flag};

use crate::program::is_flag;

/// What ends the flags.
const END: &str = "--";

/// What the flags of a command line ask for.
pub trait Flags<'a> {
    /// Takes a flag of one word; none if it is no such flag, or may not stand here.
    fn take_word(&mut self, flag: &str) -> Option<()>;

    /// Takes a flag with its value; none if it is no such flag, or has no such value.
    fn take_value(&mut self, flag: &str, value: &'a str) -> Option<()>;
}

/// Takes a flag at the beginning of words, and returns the words after it; none if there is none.
fn after_flag<'a, F: Flags<'a>>(flags: &mut F, words: &'a [String]) -> Option<&'a [String]>
    ensures end { IfSome result (λ rest. IsEnd words.now rest.now) }
    ensures less { IfSome result (λ rest. length rest.now < length words.now) }
{
    let (flag, more) = words.split_first()?;
    if flags.take_word(flag.as_str()).is_some() {
        return Some(more);
    }
    let (value, more) = more.split_first()?;
    flags.take_value(flag.as_str(), value.as_str())?;
    Some(more)
}

/// Takes the flags at the beginning of words, and returns the words after them.
pub fn after_flags<'a, F: Flags<'a>>(flags: &mut F, words: &'a [String]) -> &'a [String]
    ensures { IsEnd words.now result.now }
{
    let mut rest = words;
    while let Some(more) = after_flag(flags, rest) {
        rest = more;
    }
    rest
}

/// The words after `--`, if it is the first.
fn after_end(words: &[String]) -> Option<&[String]>
    ensures { option_map (λ files. files.now) result ≡ after_end words.now }
{
    let (end, files) = words.split_first()?;
    if end.as_str() == END {
        return Some(files);
    }
    None
}

/// Whether one of the words looks like a flag.
fn has_flag(words: &[String]) -> bool
    ensures { result ≡ has_flag words.now }
{
    words.iter().any(|word| is_flag(word.as_str()))
}

/// The files that words name: all words after `--`, or else all, if none looks like a flag.
fn files_in(words: &[String]) -> Option<&[String]>
    ensures { option_map (λ files. files.now) result ≡ files_in words.now }
{
    if has_flag(words) {
        return after_end(words);
    }
    Some(words)
}

/// Takes the flags at the beginning of words, and returns the files that are named after them; none
/// if there is a flag that is not taken.
pub fn files_after<'a, F: Flags<'a>>(flags: &mut F, words: &'a [String]) -> Option<&'a [String]>
    ensures { AreAfter words.now (option_map (λ files. files.now) result) }
{
    files_in(after_flags(flags, words))
}
