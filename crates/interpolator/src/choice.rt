//! A choice between two references.
ghost use Rattle.std.specs.Prelude.{◌≡◌, if◌then◌else◌};

/// The first if `is_first`, else the other: for a choice between two templates.
///
/// ```text
/// let chosen = first_if(german_is_ok, &german, &english);
/// context.format_template(alloc, chosen)?
/// ```
pub fn first_if<'a, T>(is_first: bool, first: &'a T, other: &'a T) -> &'a T
    ensures { result.now ≡ if is_first then first.now else other.now }
{
    if is_first { first } else { other }
}
