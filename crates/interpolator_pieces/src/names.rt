//! The names that pieces use.
ghost use Rattle.std.specs.Prelude.{◌≡◌, ◌++◌, IfOk, Some, true, option_map};
ghost use Rattle.std.specs.Str.{chars};
ghost use Rattle.interpolator_eval.specs.Meaning.AskedNames.{context_names, content_names};
ghost use Rattle.interpolator_pieces.specs.NodeNames.{name_list, name_texts, visit_asks};
ghost use Rattle.interpolator_pieces.specs.Stored.{content_of, node_of, node_whole};

use crate::piece::{Form, Piece, form_of};
use crate::piece_text::text_of;
use crate::walk::{Level, Visitor};
use std::alloc::{AllocError, Global};

/// The name, unless it is the empty name in an item format, which is the item.
fn context_name(name: &str, in_item: bool) -> Option<&str>
    ensures { name_list (option_map (λ name. chars name.now) result)
        ≡ context_names in_item (chars name.now) }
{
    if in_item && name.is_empty() {
        return None;
    }
    Some(name)
}

/// The name that a piece uses, if it is an argument.
fn asked_name<'t>(text: &'t str, piece: &Piece, in_item: bool) -> Option<&'t str>
    requires { node_whole (node_of text.now piece.now) ≡ true }
    ensures { name_list (option_map (λ name. chars name.now) result)
        ≡ content_names in_item (content_of text.now piece.now) }
{
    match form_of(piece) {
        Form::Text => None,
        Form::Broken(_) => None,
        _ => context_name(text_of(text, piece), in_item),
    }
}

/// Copies of the names that pieces use, in order.
#[derive(Drop)]
pub struct Names {
    pub alloc: Global,
    pub names: Vec<String>,
}

impl Visitor for Names {
    type Stop = AllocError;

    ghost step = { λ text old visit new answer. IfOk answer (λ _. name_texts new.names.items
        ≡ name_texts old.names.items ++ visit_asks visit) };

    fn enter(&mut self, text: &str, piece: &Piece, level: Level) -> Result<(), AllocError> {
        match asked_name(text, piece, level.in_item) {
            Some(name) => {
                self.names.push(String::from_str(self.alloc, name)?)?;
                Ok(())
            }
            None => Ok(()),
        }
    }

    fn leave(&mut self, _text: &str, _piece: &Piece, _spot: Level) -> Result<(), AllocError> {
        Ok(())
    }
}
