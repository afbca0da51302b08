//! Whether parts of a format are short enough to be written together.
ghost use Rattle.std.specs.Prelude.{◌<◌, ◌^◌, IsTrue};
ghost use Rattle.interpolator.specs.Meaning.Parts.{bytes_of};

/// Whether the parts, joined, have fewer than 2^64 bytes.
pub fn parts_fit(parts: &[&str]) -> bool
    ensures { IsTrue result → bytes_of parts.now < 2 ^ 64 }
{
    let mut bytes: usize = 0;
    for part in parts {
        match bytes.checked_add(part.len()) {
            None => return false,
            Some(more) => bytes = more,
        }
    }
    true
}
