//! The contexts of files: what they have under their names.

use crate::cells::Cell;
use crate::lexing::Word;
use crate::names::{SLOTS, Slots, TRUTHS, named};
use crate::trouble::Read;
use crate::words::Words;
use interpolator::{ContextMap, Formattable, Limits, OwnedView};
use std::alloc::{AllocError, Global};

/// How deep lists may be nested.
const LEVELS: usize = 4;

/// More characters than a float has without a precision.
const MOST_FLOAT: usize = 400;

/// A value, and the slots that it fills.
#[derive(Drop)]
struct Fill {
    slots: Vec<Slots>,
    cell: Cell,
}

/// Where the items of a list are among the items of their level.
#[derive(Clone, Copy)]
struct Items {
    from: usize,
    to: usize,
}

/// What a context has under a name, or an item of a list.
#[derive(Drop)]
struct Held {
    /// The name, which is empty for an item.
    name: String,
    /// How many lists it is inside.
    level: usize,
    fills: Vec<Fill>,
    /// The last of its lists.
    list: Option<Items>,
}

/// Everything that a context has under its names, and in the lists there.
#[derive(Drop)]
pub struct Holding {
    alloc: Global,
    all: Vec<Held>,
}

/// The view here, as a value.
pub fn take_cell(words: &mut Words<'_>) -> Read<Cell> {
    match words.bare().unwrap_or("") {
        "plain" => Ok(Cell::Plain(words.text()?)),
        "not_implemented" => Ok(Cell::NotImplemented),
        "failed" => Ok(Cell::Failed),
        kind => Ok(Cell::Owned(take_owned(words, kind)?)),
    }
}

/// The view of this kind, after its kind.
fn take_owned(words: &mut Words<'_>, kind: &str) -> Read<OwnedView> {
    match kind {
        "truth" => Ok(OwnedView::Truth(words.wanted(&TRUTHS)?)),
        "character" => Ok(OwnedView::Character(words.character()?)),
        "text" => Ok(OwnedView::Text(words.text()?)),
        "decimal" => {
            let units = words.bare().unwrap_or("");
            let decimal = decimal_of(units, words.bare().unwrap_or(""));
            decimal.ok_or(words.trouble("the units of a decimal are wanted, and its scale"))
        }
        _ => {
            let number = number_of(kind, words.bare().unwrap_or(""));
            number.ok_or(words.trouble("a view is wanted, and a number within its bits"))
        }
    }
}

/// The decimal whose units and scale two words spell.
fn decimal_of(units: &str, scale: &str) -> Option<OwnedView> {
    let units = units.parse::<i128>().ok()?;
    let scale = scale.parse::<u32>().ok()?;
    Some(OwnedView::Decimal { units, scale })
}

/// The number of a type that a word spells.
fn number_of(kind: &str, word: &str) -> Option<OwnedView> {
    match kind {
        "i8" => Some(OwnedView::from(word.parse::<i8>().ok()?)),
        "i16" => Some(OwnedView::from(word.parse::<i16>().ok()?)),
        "i32" => Some(OwnedView::from(word.parse::<i32>().ok()?)),
        "i64" => Some(OwnedView::from(word.parse::<i64>().ok()?)),
        "i128" => Some(OwnedView::from(word.parse::<i128>().ok()?)),
        "f32" => Some(OwnedView::from(word.parse::<f32>().ok()?)),
        "f64" => Some(OwnedView::from(word.parse::<f64>().ok()?)),
        "u8" => Some(OwnedView::from(word.parse::<u8>().ok()?)),
        "u16" => Some(OwnedView::from(word.parse::<u16>().ok()?)),
        "u32" => Some(OwnedView::from(word.parse::<u32>().ok()?)),
        "u64" => Some(OwnedView::from(word.parse::<u64>().ok()?)),
        "u128" => Some(OwnedView::from(word.parse::<u128>().ok()?)),
        _ => None,
    }
}

/// The slots here, joined by commas.
fn take_slots(alloc: Global, words: &mut Words<'_>) -> Read<Vec<Slots>> {
    let mut all = Vec::new(alloc);
    for word in words.bare().unwrap_or("").split(',') {
        match named(&SLOTS, word) {
            Some(slots) => all.push(slots)?,
            None => return Err(words.trouble("no such slot")),
        }
    }
    Ok(all)
}

impl Held {
    fn new(alloc: Global, name: String, level: usize) -> Held {
        Held {
            name,
            level,
            fills: Vec::new(alloc),
            list: None,
        }
    }
}

/// The number of characters of the longest text among the values, a decimal's or a float's with its
/// sign.
fn longest_of(fills: &[Fill]) -> usize {
    let mut longest = 0usize;
    for fill in fills {
        longest = longest.max(match &fill.cell {
            Cell::Owned(OwnedView::Text(text)) => text.chars().count(),
            Cell::Owned(OwnedView::Decimal { scale, .. }) => (*scale as usize).saturating_add(41),
            Cell::Owned(OwnedView::Float(_)) => MOST_FLOAT,
            Cell::Owned(OwnedView::Float32(_)) => MOST_FLOAT,
            Cell::Plain(text) => text.chars().count(),
            _ => 0,
        });
    }
    longest
}

impl Holding {
    pub fn new(alloc: Global) -> Holding {
        Holding {
            alloc,
            all: Vec::new(alloc),
        }
    }

    /// How many names or items there are at a level.
    fn count(&self, level: usize) -> usize {
        self.all.iter().filter(|held| held.level == level).count()
    }

    /// The index of the name, if it is there.
    fn find(&self, name: &str) -> Option<usize> {
        let mut all = self.all.iter();
        all.position(|held| held.level == 0 && held.name.as_str() == name)
    }

    /// Adds a name or an item, and returns its index.
    fn add(&mut self, name: String, level: usize) -> Read<usize> {
        let held = Held::new(self.alloc, name, level);
        self.all.push(held)?;
        Ok(self.all.len().saturating_sub(1))
    }

    /// The index of the name, which is added if it is not there.
    fn find_or_add(&mut self, name: String) -> Read<usize> {
        match self.find(name.as_str()) {
            Some(index) => Ok(index),
            None => self.add(name, 0),
        }
    }

    /// Limits that none of the values and lists exceeds.
    pub fn limits(&self) -> Limits {
        let mut text = 0usize;
        let mut items = 0usize;
        for held in &self.all {
            text = text.max(longest_of(&held.fills));
            if let Some(list) = held.list {
                items = items.max(list.to.saturating_sub(list.from));
            }
        }
        Limits { text, items }
    }

    fn level_of(&self, index: usize) -> usize {
        match self.all.get(index) {
            Some(held) => held.level,
            None => 0,
        }
    }

    fn fill(&mut self, index: usize, fill: Fill) -> Read<()> {
        if let Some(held) = self.all.get_mut(index) {
            held.fills.push(fill)?;
        }
        Ok(())
    }

    /// Begins a list under the name or the item at the index.
    fn begin_list(&mut self, index: usize) {
        let from = self.count(self.level_of(index).saturating_add(1));
        if let Some(held) = self.all.get_mut(index) {
            held.list = Some(Items { from, to: from });
        }
    }

    /// Adds an item to the last list of the name or the item at the index; returns its own index.
    fn add_item(&mut self, words: &Words<'_>, index: usize) -> Read<usize> {
        let level = self.level_of(index).saturating_add(1);
        if level >= LEVELS {
            return Err(words.trouble("lists stand too deep in one another"));
        }
        let item = self.add(String::new(self.alloc), level)?;
        let to = self.count(level);
        if let Some(held) = self.all.get_mut(index) {
            if let Some(list) = held.list {
                held.list = Some(Items { to, ..list });
                return Ok(item);
            }
        }
        Err(words.trouble("`list` is wanted before items"))
    }

    /// Reads a fact of the innermost name or item that is open.
    fn take_fact(&mut self, words: &mut Words<'_>, open: &mut Vec<usize>) -> Read<()> {
        let index = open.last().copied().unwrap_or(0);
        if words.takes("list") {
            self.begin_list(index);
            return Ok(());
        }
        match words.peek() {
            Some(Word::Open) => {
                words.skip();
                open.push(self.add_item(words, index)?)?;
                Ok(())
            }
            Some(Word::Close) => {
                words.skip();
                let _ = open.pop();
                if open.is_empty() {
                    return Err(words.trouble("a parenthesis too many"));
                }
                Ok(())
            }
            _ => {
                let slots = take_slots(self.alloc, words)?;
                let cell = take_cell(words)?;
                self.fill(index, Fill { slots, cell })
            }
        }
    }

    /// The name here.
    fn take_name(&self, words: &mut Words<'_>) -> Read<String> {
        if words.is_text() {
            return words.text();
        }
        match words.bare() {
            Some(name) => Ok(String::from_str(self.alloc, name)?),
            None => Err(words.trouble("a name is wanted")),
        }
    }

    /// Reads a line of the context: a name, and what is under it.
    pub fn take_line(&mut self, words: &mut Words<'_>) -> Read<()> {
        let name = self.take_name(words)?;
        let mut open = Vec::new(self.alloc);
        open.push(self.find_or_add(name)?)?;
        for _ in 0..words.len() {
            if words.is_done() {
                break;
            }
            self.take_fact(words, &mut open)?;
        }
        if open.len() > 1 {
            return Err(words.trouble("a parenthesis is not closed"));
        }
        Ok(())
    }
}

/// The items of a list.
fn list_of<'a>(below: &'a [Formattable<'a, Cell>], list: Items) -> &'a [Formattable<'a, Cell>] {
    let front = &below[..list.to.min(below.len())];
    &front[list.from.min(front.len())..]
}

/// Fills slots with a value.
fn fill_slots<'a>(held: &mut Formattable<'a, Cell>, slots: Slots, cell: &'a Cell) {
    match slots {
        Slots::DebugDisplay => held.set_debug_display(cell),
        Slots::Integer => held.set_integer(cell),
        Slots::Float => held.set_float(cell),
        Slots::Debug => held.set_debug(cell),
        Slots::Display => held.set_display(cell),
        Slots::Binary => held.set_binary(cell),
        Slots::LowerExp => held.set_lower_exp(cell),
        Slots::LowerHex => held.set_lower_hex(cell),
        Slots::Octal => held.set_octal(cell),
        Slots::UpperExp => held.set_upper_exp(cell),
        Slots::UpperHex => held.set_upper_hex(cell),
    }
}

/// Fills all slots of one value.
fn fill_all<'a>(held: &mut Formattable<'a, Cell>, all: &'a Fill) {
    for slots in &all.slots {
        fill_slots(held, *slots, &all.cell);
    }
}

/// The slots of a name or an item, with the items of the level below.
fn value_of<'a>(held: &'a Held, below: &'a [Formattable<'a, Cell>]) -> Formattable<'a, Cell> {
    let mut value = Formattable::default();
    if let Some(list) = held.list {
        value.set_iter(list_of(below, list));
    }
    for all in &held.fills {
        fill_all(&mut value, all);
    }
    value
}

/// The values of a level, in order.
pub fn values_of<'a>(
    alloc: Global,
    holding: &'a Holding,
    level: usize,
    below: &'a [Formattable<'a, Cell>],
) -> Result<Vec<Formattable<'a, Cell>>, AllocError> {
    let mut values = Vec::new(alloc);
    for held in &holding.all {
        if held.level == level {
            values.push(value_of(held, below))?;
        }
    }
    Ok(values)
}

/// The values under their names.
pub fn context_of<'a>(
    alloc: Global,
    pairs: &[(&'a str, Formattable<'a, Cell>)],
) -> Result<ContextMap<'a, Cell>, AllocError> {
    let mut context = ContextMap::new(alloc);
    for (name, value) in pairs {
        context.put(name, *value)?;
    }
    Ok(context)
}

/// The values with their names, in order.
pub fn pairs_of<'a>(
    alloc: Global,
    holding: &'a Holding,
    values: &[Formattable<'a, Cell>],
) -> Result<Vec<(&'a str, Formattable<'a, Cell>)>, AllocError> {
    let mut pairs = Vec::new(alloc);
    let names = holding.all.iter().filter(|held| held.level == 0);
    for (held, value) in names.zip(values) {
        pairs.push((held.name.as_str(), *value))?;
    }
    Ok(pairs)
}

/// The same, with the last first.
pub fn turned<T: Copy>(alloc: Global, all: &[T]) -> Result<Vec<T>, AllocError> {
    all.iter().rev().copied().collect(alloc)
}
