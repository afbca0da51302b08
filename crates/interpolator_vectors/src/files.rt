//! The contexts and rows of a file.

use crate::lexing::{Word, words_of};
use crate::names::TRAITS;
use crate::trouble::{Read, Trouble};
use crate::words::Words;
use interpolator::{Range, Spec, Trait};
use std::alloc::Global;
use std::mem;

/// A line that is neither empty nor a comment.
#[derive(Drop)]
pub struct Line {
    pub number: usize,
    pub words: Vec<Word>,
}

/// A row.
#[derive(Drop)]
pub struct Row {
    /// The number of its first line.
    pub number: usize,
    pub facts: Vec<Line>,
}

/// A context and its rows.
#[derive(Drop)]
pub struct Block {
    pub cut: bool,
    pub join: bool,
    pub names: Vec<Line>,
    pub rows: Vec<Row>,
}

impl Block {
    fn new(alloc: Global, cut: bool, join: bool) -> Block {
        Block {
            cut,
            join,
            names: Vec::new(alloc),
            rows: Vec::new(alloc),
        }
    }

    /// Begins a row.
    fn begin_row(&mut self, alloc: Global, number: usize) -> Read<()> {
        self.rows.push(Row {
            number,
            facts: Vec::new(alloc),
        })?;
        Ok(())
    }

    /// Adds a line to the last row or, before the first, to the context.
    fn add(&mut self, line: Line) -> Read<()> {
        if let Some(row) = self.rows.last_mut() {
            row.facts.push(line)?;
            return Ok(());
        }
        self.names.push(line)?;
        Ok(())
    }
}

/// A file that is read line by line.
#[derive(Drop)]
struct Reader {
    alloc: Global,
    /// The contexts that ended before this line.
    blocks: Vec<Block>,
    /// The context that the line belongs to.
    block: Block,
}

impl Reader {
    /// Ends the context, after which comes the next.
    fn end_block(&mut self, next: Block) -> Read<()> {
        let block = mem::replace(&mut self.block, next);
        self.blocks.push(block)?;
        Ok(())
    }

    /// Reads a line that is not indented.
    fn take_head(&mut self, line: &Line) -> Read<()> {
        let mut words = Words::new(self.alloc, line.number, &line.words);
        if words.takes("row") {
            self.block.begin_row(self.alloc, line.number)?;
            if words.is_text() {
                let _ = words.text()?;
            }
            return words.done();
        }
        if !words.takes("context") {
            return Err(words.trouble("a line at the margin begins with `context` or `row`"));
        }
        let next = Block::new(self.alloc, words.takes("cut"), words.takes("join"));
        self.end_block(next)?;
        words.done()
    }

    /// Reads the line of this number.
    fn take(&mut self, number: usize, text: &str) -> Read<()> {
        if text.trim_start().starts_with('#') {
            return Ok(());
        }
        let words = words_of(self.alloc, number, text)?;
        if words.is_empty() {
            return Ok(());
        }
        let line = Line { number, words };
        if text.starts_with(' ') {
            return self.block.add(line);
        }
        self.take_head(&line)
    }
}

/// The contexts of a file, each with its rows.
pub fn blocks_of(alloc: Global, text: &str) -> Read<Vec<Block>> {
    let mut reader = Reader {
        alloc,
        blocks: Vec::new(alloc),
        block: Block::new(alloc, false, false),
    };
    let mut number = 0usize;
    for line in text.lines() {
        number = number.saturating_add(1);
        reader.take(number, line)?;
    }
    reader.end_block(Block::new(alloc, false, false))?;
    Ok(reader.blocks)
}

/// Whether the line begins with this key.
fn has_key(line: &Line, key: &str) -> bool {
    match line.words.first() {
        Some(Word::Bare(word)) => word.as_str() == key,
        _ => false,
    }
}

/// The facts of a row, each of which is read once.
#[derive(Drop)]
pub struct Facts<'a> {
    pub alloc: Global,
    row: &'a Row,
    /// Those that are still to be read.
    left: Vec<&'a Line>,
}

impl<'a> Facts<'a> {
    pub fn new(alloc: Global, row: &'a Row) -> Read<Facts<'a>> {
        let left = row.facts.iter().collect::<Vec<&Line>>(alloc)?;
        Ok(Facts { alloc, row, left })
    }

    /// The words after the key of the next fact that has it; the fact counts as read.
    pub fn next(&mut self, key: &str) -> Option<Words<'a>> {
        let index = self.left.iter().position(|line| has_key(line, key))?;
        let line = self.left.remove(index);
        let mut words = Words::new(self.alloc, line.number, &line.words);
        words.skip();
        Some(words)
    }

    /// How many facts are still to be read.
    pub fn len(&self) -> usize {
        self.left.len()
    }

    /// The error that this is wrong with the row.
    pub fn trouble(&self, what: &'static str) -> Trouble {
        Trouble::Line(self.row.number, what)
    }

    /// Checks that each fact was read.
    pub fn done(&self) -> Read<()> {
        if self.left.is_empty() {
            Ok(())
        } else {
            Err(self.trouble("a key that is not known here, or that stands twice"))
        }
    }

    /// The text of the fact of this key.
    pub fn text(&mut self, key: &str) -> Read<Option<String>> {
        let Some(mut words) = self.next(key) else {
            return Ok(None);
        };
        let text = words.text()?;
        words.done()?;
        Ok(Some(text))
    }

    /// The number of the fact of this key.
    pub fn number(&mut self, key: &str) -> Read<Option<usize>> {
        let Some(mut words) = self.next(key) else {
            return Ok(None);
        };
        let number = words.number()?;
        words.done()?;
        Ok(Some(number))
    }

    /// The text of the fact of this key, which has to be there.
    pub fn the_text(&mut self, key: &str) -> Read<String> {
        self.text(key)?
            .ok_or(self.trouble("a text is missing in this row"))
    }

    /// The number of the fact of this key, which has to be there.
    pub fn the_number(&mut self, key: &str) -> Read<usize> {
        self.number(key)?
            .ok_or(self.trouble("a number is missing in this row"))
    }

    /// Whether there is a fact of this key, which says nothing else.
    pub fn mark(&mut self, key: &str) -> Read<bool> {
        let Some(words) = self.next(key) else {
            return Ok(false);
        };
        words.done()?;
        Ok(true)
    }

    /// What the word of the fact of this key stands for in the table.
    pub fn one_of<T: Copy>(&mut self, key: &str, table: &[(&str, T)]) -> Read<Option<T>> {
        let Some(mut words) = self.next(key) else {
            return Ok(None);
        };
        let one = words.wanted(table)?;
        words.done()?;
        Ok(Some(one))
    }

    /// The trait of the row.
    pub fn the_trait(&mut self) -> Read<Trait> {
        self.one_of("trait", &TRAITS)?
            .ok_or(self.trouble("a trait is missing in this row"))
    }

    /// The spec of the row; nothing is set without one.
    pub fn spec(&mut self) -> Read<Spec> {
        match self.next("spec") {
            Some(words) => words.spec(),
            None => Ok(Spec::default()),
        }
    }

    /// The range of the row, if it has one.
    pub fn range(&mut self) -> Read<Option<Range>> {
        match self.next("range") {
            Some(words) => Ok(Some(words.range()?)),
            None => Ok(None),
        }
    }
}
