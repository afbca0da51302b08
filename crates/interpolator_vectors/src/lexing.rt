//! The words of a line.

use crate::trouble::{Read, Trouble};
use std::alloc::Global;
use std::mem;

/// A word of a line.
#[derive(Drop)]
pub enum Word {
    /// Characters without quotes.
    Bare(String),
    /// The text between quotes.
    Text(String),
    Open,
    Close,
}

/// Where in a line the next character is.
#[derive(Clone, Copy)]
enum State {
    /// Between two words.
    Between,
    /// In a word without quotes.
    Bare,
    /// Between quotes.
    Quoted,
    /// After a backslash.
    Escape,
    /// After `\u`.
    Code,
    /// Between the braces after `\u`, with the digits so far.
    Digits(Option<u32>),
    /// After a quote that closes.
    Closed,
}

/// A line that is cut into words.
#[derive(Drop)]
struct Lexer {
    alloc: Global,
    /// The line's number.
    number: usize,
    words: Vec<Word>,
    /// The word that is being read.
    word: String,
    state: State,
}

/// The character that this one stands for after a backslash.
fn escaped(c: char) -> Option<char> {
    match c {
        '"' => Some('"'),
        '\\' => Some('\\'),
        'n' => Some('\n'),
        'r' => Some('\r'),
        't' => Some('\t'),
        '0' => Some('\0'),
        _ => None,
    }
}

impl Lexer {
    fn new(alloc: Global, number: usize) -> Lexer {
        Lexer {
            alloc,
            number,
            words: Vec::new(alloc),
            word: String::new(alloc),
            state: State::Between,
        }
    }

    fn trouble(&self, what: &'static str) -> Trouble {
        Trouble::Line(self.number, what)
    }

    /// The word that was read, which ends here.
    fn cut(&mut self) -> String {
        mem::replace(&mut self.word, String::new(self.alloc))
    }

    fn end_bare(&mut self) -> Read<()> {
        let word = self.cut();
        self.words.push(Word::Bare(word))?;
        self.state = State::Between;
        Ok(())
    }

    /// A character between two words.
    fn begin(&mut self, c: char) -> Read<()> {
        match c {
            ' ' => self.state = State::Between,
            '(' => {
                self.words.push(Word::Open)?;
                self.state = State::Between;
            }
            ')' => {
                self.words.push(Word::Close)?;
                self.state = State::Between;
            }
            '"' => self.state = State::Quoted,
            _ => {
                self.word.push(c)?;
                self.state = State::Bare;
            }
        }
        Ok(())
    }

    /// A character of a word without quotes, or the one after it.
    fn take_bare(&mut self, c: char) -> Read<()> {
        match c {
            '"' => Err(self.trouble("a quote stands in a word")),
            ' ' | '(' | ')' => {
                self.end_bare()?;
                self.begin(c)
            }
            _ => {
                self.word.push(c)?;
                Ok(())
            }
        }
    }

    /// A character between quotes, or the quote that closes them.
    fn take_quoted(&mut self, c: char) -> Read<()> {
        match c {
            '"' => {
                let word = self.cut();
                self.words.push(Word::Text(word))?;
                self.state = State::Closed;
            }
            '\\' => self.state = State::Escape,
            _ => self.word.push(c)?,
        }
        Ok(())
    }

    fn take_escape(&mut self, c: char) -> Read<()> {
        if c == 'u' {
            self.state = State::Code;
            return Ok(());
        }
        match escaped(c) {
            Some(c) => {
                self.word.push(c)?;
                self.state = State::Quoted;
                Ok(())
            }
            None => Err(self.trouble("no such escape")),
        }
    }

    fn take_code(&mut self, c: char) -> Read<()> {
        if c != '{' {
            return Err(self.trouble("`{` is wanted after `\\u`"));
        }
        self.state = State::Digits(None);
        Ok(())
    }

    /// A digit of a scalar value, or the brace after it.
    fn take_digit(&mut self, code: Option<u32>, c: char) -> Read<()> {
        if c == '}' {
            let Some(c) = code.and_then(char::from_u32) else {
                return Err(self.trouble("no such scalar value"));
            };
            self.word.push(c)?;
            self.state = State::Quoted;
            return Ok(());
        }
        let Some(digit) = c.to_digit(16) else {
            return Err(self.trouble("no hexadecimal digit"));
        };
        let more = code.unwrap_or(0).saturating_mul(16).saturating_add(digit);
        self.state = State::Digits(Some(more));
        Ok(())
    }

    fn take(&mut self, c: char) -> Read<()> {
        match self.state {
            State::Between => self.begin(c),
            State::Bare => self.take_bare(c),
            State::Quoted => self.take_quoted(c),
            State::Escape => self.take_escape(c),
            State::Code => self.take_code(c),
            State::Digits(code) => self.take_digit(code, c),
            State::Closed => match c {
                ' ' | '(' | ')' => self.begin(c),
                _ => Err(self.trouble("a word stands right after a quote")),
            },
        }
    }

    fn end(mut self) -> Read<Vec<Word>> {
        match self.state {
            State::Bare => self.end_bare()?,
            State::Between | State::Closed => {}
            _ => return Err(self.trouble("a text is not closed")),
        }
        Ok(self.words)
    }
}

/// The words of a line.
pub fn words_of(alloc: Global, number: usize, line: &str) -> Read<Vec<Word>> {
    let mut lexer = Lexer::new(alloc, number);
    for c in line.chars() {
        lexer.take(c)?;
    }
    lexer.end()
}
