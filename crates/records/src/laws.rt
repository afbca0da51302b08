//! Laws of the definitions, each the contract of a small function.

ghost use Rattle.std.specs.Prelude.{◌≡◌, ℕ, List};
ghost use Rattle.records.specs.{Faults.Breaks, Records.Begins, Tables.AreEntries, Tables.At};
ghost use Rattle.records.specs.{Tables.Entry, declared.fault.Problem.Problem as Why};
ghost use Rattle.records.specs.declared.separator.Separator.{Separator as Sep};

/// A text begins with one record at most, which leaves one rest; or with none for one problem,
/// which is in one place.
pub fn a_text_begins_with_one_record_or_one_fault()
    ensures record_once { (separator : Sep) (fields others : List (List ℕ))
        (text rest end : List ℕ) → Begins separator fields text rest
        → Begins separator others text end → (fields ≡ others) × (rest ≡ end) }
    ensures fault_once { (separator : Sep) (problem other : Why) (text tail end : List ℕ)
        → Breaks separator problem text tail → Breaks separator other text end
        → (problem ≡ other) × (tail ≡ end) }
    ensures not_both { (separator : Sep) (fields : List (List ℕ)) (problem : Why)
        (text rest tail : List ℕ) → Begins separator fields text rest
        → ¬ Breaks separator problem text tail }
{}

/// A table is one list of records and faults, each with its line or its place: no text can be read
/// in two ways.
pub fn a_table_is_read_in_one_way()
    ensures { (separator : Sep) (from : At) (entries others : List Entry)
        → AreEntries separator entries from → AreEntries separator others from
        → entries ≡ others }
{}
