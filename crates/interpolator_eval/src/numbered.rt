//! Names that own their texts, each beside a number, and a guess where each is among a few.
ghost use Rattle.std.specs.Prelude.{◌≡◌, ◌≤◌, ◌<◌, length, slice_get, true};
ghost use Rattle.std.specs.List.{position_or_len};
ghost use Rattle.interpolator_eval.specs.Names.{AreEnds, is_word_size};
ghost use Rattle.interpolator_eval.specs.NameNumbers.{ends_number, name_number, guess_index, is_of, mixed};
ghost use Rattle.interpolator_eval.specs.NameNumbers.{guess_for, guessed_place, passes};

use crate::names::{back_of, front_of, has_ends, same_name};

/// How many guesses there are: more than twice as many as names, so that most guesses are right.
pub(crate) const GUESSES: usize = 128;

/// A name with its number, and what it stands for.
#[derive(Drop)]
pub(crate) struct Numbered<T> {
    pub(crate) number: u64,
    pub(crate) name: String,
    pub(crate) value: T,
}

// What the ends of names are multiplied by: an odd number without a pattern.
const ODD: u64 = 0x9e37_79b9_7f4a_7c15;

// Two numbers and a count in one, whose first bits hang on all of them.
#[tactic(auto, unfolding(crate::specs::NameNumbers::mixed))]
#[inline(always)]
fn mixed(front: u64, back: u64, count: usize) -> u64
    ensures { result ≡ mixed front back count }
{
    front
        .wrapping_mul(ODD)
        .wrapping_add(back)
        .wrapping_add(count as u64)
        .wrapping_mul(ODD)
}

/// The number of a name of these ends. Few names have the same one, and it takes no loop.
#[tactic(auto, unfolding(crate::specs::Names::AreEnds, crate::specs::NameNumbers::ends_number))]
#[inline(always)]
pub(crate) fn number_by<const N: usize>(name: &[u8], front: u64, back: u64) -> u64
    requires ends { AreEnds N name.now front back }
    ensures { result ≡ ends_number N name.now }
{
    mixed(front, back, name.len())
}

// The number of a name by its first and last `N` bytes.
#[tactic(auto, unfolding(crate::specs::NameNumbers::ends_number))]
#[inline(always)]
fn by_ends<const N: usize>(name: &[u8]) -> u64
    requires size { is_word_size N ≡ true }
    requires least { N ≤ length name.now }
    ensures { result ≡ ends_number N name.now }
{
    mixed(front_of::<N>(name), back_of::<N>(name), name.len())
}

/// The number of a name of any length.
pub(crate) fn number_of(name: &[u8]) -> u64
    ensures { result ≡ name_number name.now }
{
    let count = name.len();
    if count == 0 {
        0
    } else if count <= 2 {
        by_ends::<1>(name)
    } else if count <= 4 {
        by_ends::<2>(name)
    } else if count <= 8 {
        by_ends::<4>(name)
    } else {
        by_ends::<8>(name)
    }
}

/// Which of the guesses is that of a name of this number: its first bits.
#[inline(always)]
pub(crate) fn index_of_guess(number: u64) -> usize
    ensures index { result ≡ guess_index number }
    ensures in_range { result < 128 }
{
    (number >> 57) as usize
}

// Whether an entry is that of a name.
#[inline(always)]
fn is_entry_of<T>(entry: &Numbered<T>, number: u64, name: &str) -> bool
    requires number { number ≡ name_number name.now }
    ensures { result ≡ is_of name.now entry.now }
{
    entry.number == number && same_name(&entry.name, name)
}

/// Returns the place of the first entry of a name, or the count of entries. It is seldom asked.
#[inline(never)]
pub(crate) fn searched_place<T>(entries: &[Numbered<T>], number: u64, name: &str) -> usize
    requires number { number ≡ name_number name.now }
    ensures { result ≡ position_or_len (is_of name.now) entries.now }
{
    let mut place = 0;
    while place < entries.len() {
        if is_entry_of(&entries[place], number, name) {
            return place;
        }
        place += 1;
    }
    place
}

/// Whether the entry at a place is that of a name of these ends.
#[inline(always)]
pub(crate) fn is_guessed_by<T, const N: usize>(
    entries: &[Numbered<T>],
    guess: usize,
    number: u64,
    name: &[u8],
    front: u64,
    back: u64,
) -> bool
    requires number { number ≡ name_number name.now }
    requires ends { AreEnds N name.now front back }
    ensures { result ≡ passes (is_of name.now) (slice_get entries.now guess) }
{
    if guess < entries.len() {
        return has_number_and_ends::<T, N>(&entries[guess], number, name, front, back);
    }
    false
}

// Whether an entry is that of a name of these ends.
#[inline(always)]
fn has_number_and_ends<T, const N: usize>(
    entry: &Numbered<T>,
    number: u64,
    name: &[u8],
    front: u64,
    back: u64,
) -> bool
    requires number { number ≡ name_number name.now }
    requires ends { AreEnds N name.now front back }
    ensures { result ≡ is_of name.now entry.now }
{
    entry.number == number && has_ends::<N>(entry.name.as_bytes(), name, front, back)
}

// Whether the entry at a place is that of a name.
#[inline(always)]
fn is_guessed<T>(entries: &[Numbered<T>], guess: usize, number: u64, name: &str) -> bool
    requires number { number ≡ name_number name.now }
    ensures { result ≡ passes (is_of name.now) (slice_get entries.now guess) }
{
    if guess < entries.len() {
        return is_entry_of(&entries[guess], number, name);
    }
    false
}

/// Returns the place of the entry of a name: the guessed one, or the first, or the count of entries.
#[inline(always)]
pub(crate) fn place_of<T>(entries: &[Numbered<T>], guesses: &[u8; GUESSES], name: &str) -> usize
    ensures { result
        ≡ guessed_place (is_of name.now) entries.now (guess_for guesses.now name.now) }
{
    let number = number_of(name.as_bytes());
    let guess = usize::from(guesses[index_of_guess(number)]);
    if is_guessed(entries, guess, number, name) {
        return guess;
    }
    searched_place(entries, number, name)
}
