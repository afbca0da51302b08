//! Laws of the definitions, each the contract of a small function.

ghost use Rattle.std.specs.Prelude.{◌≡◌, ℕ, List};
ghost use Rattle.po.specs.Entries.{BreaksEntries, Entry as Message, HasEntries};
ghost use Rattle.po.specs.Tokens.{HasTokens, IsBroken, Spot};
ghost use Rattle.po.specs.{declared.fault.Fault.Fault as Why, declared.token.Placed.Placed as At};

/// A text is one list of tokens, or it is broken: no text can be read in two ways.
pub fn a_file_has_one_list_of_tokens()
    ensures once { (text : List ℕ) (spots others : List Spot) → HasTokens text spots
        → HasTokens text others → spots ≡ others }
    ensures not_both { (text : List ℕ) (spots : List Spot) (fault : Why) → HasTokens text spots
        → ¬ IsBroken text fault }
{}

/// Tokens are one list of entries, or they are broken.
pub fn tokens_are_one_list_of_entries()
    ensures once { (end : ℕ) (tokens : List At) (entries others : List Message)
        → HasEntries end tokens entries → HasEntries end tokens others → entries ≡ others }
    ensures not_both { (end : ℕ) (tokens : List At) (entries : List Message) (fault : Why)
        → HasEntries end tokens entries → ¬ BreaksEntries end tokens fault }
{}
