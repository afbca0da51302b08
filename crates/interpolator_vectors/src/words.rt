//! What the words of a line mean.

use crate::lexing::Word;
use crate::names::{ALIGNMENTS, HEX_DEBUGS, NUMBER_FAULTS, SIGNS, TRAITS, named};
use crate::trouble::{Read, Trouble};
use interpolator::{Alignment, Error, HexDebug, NumberError, ParseError, Range, Sign, Spec};
use std::alloc::Global;
use std::fmt;

/// The words of a line that are still to be read.
#[derive(Clone, Copy)]
pub struct Words<'a> {
    alloc: Global,
    number: usize,
    words: &'a [Word],
    at: usize,
    /// How many bytes further on the places of faults are.
    shift: usize,
}

impl<'a> Words<'a> {
    /// All words of the line of this number.
    pub fn new(alloc: Global, number: usize, words: &'a [Word]) -> Words<'a> {
        Words {
            alloc,
            number,
            words,
            at: 0,
            shift: 0,
        }
    }

    /// The same words, whose faults are this many bytes further on.
    pub fn moved(mut self, bytes: usize) -> Words<'a> {
        self.shift = bytes;
        self
    }

    /// How many words the line has.
    pub fn len(&self) -> usize {
        self.words.len()
    }

    /// The error that this is wrong with the line.
    pub fn trouble(&self, what: &'static str) -> Trouble {
        Trouble::Line(self.number, what)
    }

    /// The word here.
    pub fn peek(&self) -> Option<&'a Word> {
        self.words.get(self.at)
    }

    /// Goes on to the word after this one.
    pub fn skip(&mut self) {
        self.at = self.at.saturating_add(1);
    }

    /// Whether all words are read.
    pub fn is_done(&self) -> bool {
        self.at >= self.words.len()
    }

    /// Checks that there is no word here.
    pub fn done(&self) -> Read<()> {
        if self.is_done() {
            Ok(())
        } else {
            Err(self.trouble("a word too many, or one that is not known"))
        }
    }

    /// The word here, which has no quotes.
    pub fn bare(&mut self) -> Option<&'a str> {
        match self.peek() {
            Some(Word::Bare(word)) => {
                self.skip();
                Some(word.as_str())
            }
            _ => None,
        }
    }

    /// What the word here stands for in the table; if it is there, it counts as read.
    pub fn one_of<T: Copy>(&mut self, table: &[(&str, T)]) -> Option<T> {
        let mut after = *self;
        let one = named(table, after.bare().unwrap_or(""));
        if one.is_some() {
            self.skip();
        }
        one
    }

    /// What the word here stands for in the table, in which it has to be.
    pub fn wanted<T: Copy>(&mut self, table: &[(&str, T)]) -> Read<T> {
        self.one_of(table)
            .ok_or(self.trouble("another word is wanted"))
    }

    /// Whether this word is here; if it is, it counts as read.
    pub fn takes(&mut self, wanted: &str) -> bool {
        self.one_of(&[(wanted, ())]).is_some()
    }

    /// Whether a text is here.
    pub fn is_text(&self) -> bool {
        matches!(self.peek(), Some(Word::Text(_)))
    }

    /// The text in quotes here, by itself.
    fn quoted(&mut self) -> Option<&'a str> {
        match self.peek() {
            Some(Word::Text(text)) => {
                self.skip();
                Some(text.as_str())
            }
            _ => None,
        }
    }

    /// Appends the text here, as many times as a `*` after it says.
    fn append(&mut self, text: &mut String) -> Read<()> {
        let Some(part) = self.quoted() else {
            return Err(self.trouble("a text in quotes is wanted"));
        };
        let count = self.number_after("*")?.unwrap_or(1);
        text.push_str(part.repeat(self.alloc, count)?.as_str())?;
        Ok(())
    }

    /// Whether `+` and a text are here; if they are, the `+` counts as read.
    fn takes_join(&mut self) -> bool {
        let mut after = *self;
        if after.takes("+") && after.is_text() {
            self.skip();
            return true;
        }
        false
    }

    /// The text here, with its repeats and all that is joined to it.
    pub fn text(&mut self) -> Read<String> {
        let mut text = String::new(self.alloc);
        self.append(&mut text)?;
        for _ in 0..self.len() {
            if !self.takes_join() {
                break;
            }
            self.append(&mut text)?;
        }
        Ok(text)
    }

    /// All texts from here on.
    pub fn texts(&mut self) -> Read<Vec<String>> {
        let mut texts = Vec::new(self.alloc);
        for _ in 0..self.len() {
            if self.is_done() {
                break;
            }
            texts.push(self.text()?)?;
        }
        Ok(texts)
    }

    /// The text of one character here.
    pub fn character(&mut self) -> Read<char> {
        let mut characters = self.quoted().unwrap_or("").chars();
        match (characters.next(), characters.next()) {
            (Some(c), None) => Ok(c),
            _ => Err(self.trouble("one character in quotes is wanted")),
        }
    }

    /// The number here.
    pub fn number(&mut self) -> Read<usize> {
        match self.bare().unwrap_or("").parse::<usize>() {
            Ok(number) => Ok(number),
            Err(_) => Err(self.trouble("a number is wanted")),
        }
    }

    /// The number after this word, if the word is here.
    pub fn number_after(&mut self, word: &str) -> Read<Option<usize>> {
        if self.takes(word) {
            Ok(Some(self.number()?))
        } else {
            Ok(None)
        }
    }

    /// The place of a fault here.
    fn place(&mut self) -> Read<usize> {
        Ok(self.number()?.saturating_add(self.shift))
    }

    /// The parse fault here, if there is one.
    pub fn parse_fault(&mut self) -> Option<ParseError> {
        let name = self.bare().unwrap_or("");
        let number = self.one_of(&NUMBER_FAULTS);
        let sign = named(&EXPECTED, self.quoted().unwrap_or(""));
        let place = self.place().ok()?;
        parse_fault_of(name, number, sign, place)
    }

    /// `UnsupportedOption`, after its name.
    fn unsupported(&mut self) -> Read<Error> {
        let option = self.text()?;
        let feature = self.text()?;
        let place = self.place()?;
        if option.as_str() == "p" && feature.as_str() == "pointer" {
            return Ok(Error::UnsupportedOption("p", "pointer", place));
        }
        Err(self.trouble("no such option"))
    }

    /// `Parse`, after its name.
    fn broken(&mut self) -> Read<Error> {
        let fault = self.parse_fault();
        Ok(Error::Parse(fault.ok_or(self.trouble("no such fault of parsing"))?))
    }

    /// The fault here, to the end of the line.
    pub fn fault(mut self) -> Read<Error> {
        let fault = self.take_fault()?;
        self.done()?;
        Ok(fault)
    }

    fn take_fault(&mut self) -> Read<Error> {
        match self.bare().unwrap_or("") {
            "MissingValue" => {
                let name = self.text()?;
                Ok(Error::MissingValue(name, self.place()?))
            }
            "MissingTraitImpl" => {
                let t = self.wanted(&TRAITS)?;
                Ok(Error::MissingTraitImpl(t, self.place()?))
            }
            "Fmt" => Ok(Error::Fmt(fmt::Error, self.place()?)),
            "UnsupportedOption" => self.unsupported(),
            "NoMemory" => Ok(Error::NoMemory),
            "Parse" => self.broken(),
            _ => Err(self.trouble("no such fault")),
        }
    }

    /// The spec here, to the end of the line.
    pub fn spec(mut self) -> Read<Spec> {
        let fill = if self.takes("fill") {
            Some(self.character()?)
        } else {
            None
        };
        let alignment = self.one_of(&ALIGNMENTS).unwrap_or(Alignment::Unset);
        let sign = self.one_of(&SIGNS).unwrap_or(Sign::Unset);
        let alternate = self.takes("#");
        let zero = self.takes("0");
        let width = self.number_after("width")?;
        let precision = self.number_after("precision")?;
        let hex_debug = self.one_of(&HEX_DEBUGS).unwrap_or(HexDebug::No);
        self.done()?;
        Ok(Spec {
            fill,
            alignment,
            sign,
            alternate,
            zero,
            width,
            precision,
            hex_debug,
        })
    }

    /// The range here, to the end of the line.
    pub fn range(mut self) -> Read<Range> {
        let range = self.bare().and_then(range_of);
        let range = range.ok_or(self.trouble("a range is wanted"))?;
        self.done()?;
        Ok(range)
    }
}

/// The texts that a format can expect.
const EXPECTED: [(&str, &str); 2] = [("}", "}"), ("(", "(")];

/// The parse fault of this name and place, with what else it has.
fn parse_fault_of(
    name: &str,
    number: Option<NumberError>,
    expected: Option<&'static str>,
    place: usize,
) -> Option<ParseError> {
    match name {
        "FormatSpecUnclosed" => Some(ParseError::FormatSpecUnclosed(place)),
        "Expected" => Some(ParseError::Expected(expected?, place)),
        "InvalidWidth" => Some(ParseError::InvalidWidth(number?, place)),
        "InvalidPrecision" => Some(ParseError::InvalidPrecision(number?, place)),
        "RangeBound" => Some(ParseError::RangeBound(number?, place)),
        "Fill" => Some(ParseError::Fill(place)),
        "Iter" => Some(ParseError::Iter(place)),
        _ => None,
    }
}

/// The bound that a word spells; there is none if the word is empty.
fn bound_of(word: &str) -> Option<Option<isize>> {
    if word.is_empty() {
        return Some(None);
    }
    Some(Some(word.parse::<isize>().ok()?))
}

/// The range that a word spells.
fn range_of(word: &str) -> Option<Range> {
    let (lower, upper) = word.split_once("..")?;
    let (inclusive, upper) = match upper.strip_prefix('=') {
        Some(upper) => (true, upper),
        None => (false, upper),
    };
    Some(Range {
        lower: bound_of(lower)?,
        inclusive,
        upper: bound_of(upper)?,
    })
}
