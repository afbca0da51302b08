//! Whether two names are the same. Short names are compared by their two ends, without a call.
ghost use Rattle.std.specs.Prelude.{◌≡◌, ◌≤◌, ◌+◌, ◌-◌, take, drop, length, true};
ghost use Rattle.std.specs.Str.{bytes_eq};
ghost use Rattle.interpolator_eval.specs.Names.{AreEnds, is_word_size, word};

/// The most bytes of a name that is compared without a call.
pub(crate) const SHORT: usize = 16;

/// The bytes of a name of `N`, as a value.
#[inline(always)]
fn block_of<const N: usize>(name: &[u8]) -> [u8; N]
    requires { length name.now ≡ N }
    ensures { result ≡ name.now }
{
    match name.as_array::<N>() {
        Some(block) => *block,
        None => unreachable!(),
    }
}

/// The bytes of a name of 1, 2, 4 or 8, as one number.
#[inline(always)]
fn word_of<const N: usize>(name: &[u8]) -> u64
    requires size { is_word_size N ≡ true }
    requires length { length name.now ≡ N }
    ensures { result ≡ word N name.now }
{
    if N == 1 {
        u64::from(name[0])
    } else if N == 2 {
        u64::from(u16::from_le_bytes(block_of::<2>(name)))
    } else if N == 4 {
        u64::from(u32::from_le_bytes(block_of::<4>(name)))
    } else {
        u64::from_le_bytes(block_of::<8>(name))
    }
}

/// The first `N` bytes of a name, as one number.
#[inline(always)]
pub(crate) fn front_of<const N: usize>(name: &[u8]) -> u64
    requires size { is_word_size N ≡ true }
    requires least { N ≤ length name.now }
    ensures { result ≡ word N (take N name.now) }
{
    word_of::<N>(&name[..N])
}

/// The last `N` bytes of a name, as one number.
#[inline(always)]
pub(crate) fn back_of<const N: usize>(name: &[u8]) -> u64
    requires size { is_word_size N ≡ true }
    requires least { N ≤ length name.now }
    ensures { result ≡ word N (drop (length name.now - N) name.now) }
{
    let rest = name.len() - N;
    word_of::<N>(&name[rest..])
}

/// Returns whether a name is that of these ends. Who seeks a name among many reads its ends once.
/// Ends are numbers, since the compiler may compare arrays byte by byte.
#[tactic(auto, unfolding(crate::specs::Names::AreEnds))]
#[inline(always)]
pub(crate) fn has_ends<const N: usize>(own: &[u8], name: &[u8], front: u64, back: u64) -> bool
    requires ends { AreEnds N name.now front back }
    ensures { result ≡ bytes_eq name.now own.now }
{
    if own.len() != name.len() {
        return false;
    }
    front_of::<N>(own) == front && back_of::<N>(own) == back
}

/// Returns whether two names are the same, of which the second has `N` to twice `N` bytes.
#[tactic(auto, unfolding(crate::specs::Names::AreEnds))]
#[inline(always)]
fn same_ends<const N: usize>(own: &[u8], name: &[u8]) -> bool
    requires size { is_word_size N ≡ true }
    requires least { N ≤ length name.now }
    requires most { length name.now ≤ N + N }
    ensures { result ≡ bytes_eq name.now own.now }
{
    has_ends::<N>(own, name, front_of::<N>(name), back_of::<N>(name))
}

/// Returns whether the bytes of two names are the same.
#[inline(always)]
pub fn same_bytes(own: &[u8], name: &[u8]) -> bool
    ensures { result ≡ bytes_eq name.now own.now }
{
    let count = name.len();
    if own.len() != count {
        false
    } else if count == 0 {
        true
    } else if count <= 2 {
        same_ends::<1>(own, name)
    } else if count <= 4 {
        same_ends::<2>(own, name)
    } else if count <= 8 {
        same_ends::<4>(own, name)
    } else if count <= SHORT {
        same_ends::<8>(own, name)
    } else {
        own == name
    }
}

/// Returns whether two names are the same.
#[inline(always)]
pub fn same_name(own: &str, name: &str) -> bool
    ensures { result ≡ bytes_eq name.now own.now }
{
    same_bytes(own.as_bytes(), name.as_bytes())
}
