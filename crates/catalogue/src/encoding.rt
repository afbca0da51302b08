//! The bytes of a file as text.

ghost use Rattle.std.specs.Prelude.{◌≡◌, MatchResult};
ghost use Rattle.std.specs.Str.{IsUtf8};
ghost use Rattle.catalogue.specs.Encodings.{IsBad, IsBehind};

use interpolator::Position;
use words::program::without_mark;

/// A byte of a file that is no UTF-8, and its place.
#[derive(Clone, Copy)]
pub struct BadByte {
    pub byte: u8,
    pub place: Position,
}

/// The place behind a text; a byte order mark at its head does not count.
fn place_behind(front: &[u8]) -> Position
    requires { IsUtf8 front.now }
    ensures { IsBehind front.now result }
{
    let text = without_mark(str::from_utf8(front).unwrap());
    Position::of(text, front.len())
}

/// The bytes as text.
///
/// # Errors
///
/// The first byte that is no UTF-8.
pub fn text_in(bytes: &[u8]) -> Result<&str, BadByte>
    ensures { MatchResult result (λ text. text.now ≡ bytes.now) (λ bad. IsBad bytes.now bad) }
{
    match str::from_utf8(bytes) {
        Ok(text) => Ok(text),
        Err(error) => {
            let count = error.valid_up_to();
            Err(BadByte {
                byte: bytes[count],
                place: place_behind(&bytes[..count]),
            })
        }
    }
}
