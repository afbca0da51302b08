//! The next piece of a format text.
ghost use Rattle.std.specs.Prelude.{◌≡◌, IfSome, option_map};
ghost use Rattle.interpolator_syntax.specs.Places.{at};
ghost use Rattle.interpolator_syntax.specs.Tokens.{first_token, token_read, RunFits};

use crate::class::Class;
use crate::cursor::Cursor;

/// What is at a place in a format. Neighbouring literals are one token.
#[derive(Clone, Copy)]
pub enum Token<'a> {
    /// Characters other than braces.
    Literals(&'a str),
    /// A doubled brace, which is written as one.
    Doubled(char),
    /// A closing brace by itself, which is written.
    LoneClose,
    /// An opening brace, after which an argument begins.
    Argument,
}

/// Returns the next token, and the text after it; none at the end of the text.
#[tactic(auto, unfolding(crate::specs::Tokens::first_token), using(crate::proofs::CharacterLemmas::chars_of_end))]
#[inline(always)]
pub fn next_token(here: Cursor<'_>) -> Option<(Token<'_>, Cursor<'_>)>
    ensures token { option_map token_read result ≡ first_token (at here.entry) }
    ensures fits { IfSome result (λ r. RunFits here.entry.place r.0) }
{
    if let Some(after) = here.strip(b'{') {
        return Some(match after.strip(b'{') {
            Some(rest) => (Token::Doubled('{'), rest),
            None => (Token::Argument, after),
        });
    }
    if let Some(after) = here.strip(b'}') {
        return Some(match after.strip(b'}') {
            Some(rest) => (Token::Doubled('}'), rest),
            None => (Token::LoneClose, after),
        });
    }
    if here.rest.is_empty() {
        return None;
    }
    let (text, rest) = here.take_class(Class::Literal);
    Some((Token::Literals(text), rest))
}
