//! Laws of formats of whole fields.
ghost use Rattle.std.specs.Prelude.{◌≡◌, ◌∷◌, List, None, Some, codes, map};
ghost use Rattle.interpolator_syntax.specs.Places.{At, outermost, text_of};
ghost use Rattle.interpolator_eval.specs.Slots.{Slots, items};
ghost use Rattle.interpolator_eval.specs.Meaning.Environments.{Environment, slots_under};
ghost use Rattle.interpolator_eval.specs.Meaning.Meanings.{means};
ghost use Rattle.interpolator_escapes.specs.Readers.{Token, structure_of};
ghost use Rattle.interpolator_escapes.specs.RecordFormats.{fields_format, fields_read, item_field};
ghost use Rattle.interpolator_escapes.specs.RecordFormats.{record_parts, StandsAsRecord};
ghost use Rattle.interpolator_escapes.specs.RecordFormats.{without_quotes};
ghost use Rattle.interpolator_escapes.specs.{Csv.field_start, Fields.record_shows};
ghost use Rattle.interpolator_escapes.specs.{Formats.shows_nothing, Languages.read_by};
ghost use Rattle.interpolator_escapes.specs.Records.{fields_of};
ghost use Rattle.interpolator_escapes.specs.declared.escape.Escape.TheVariants.{Csv};

use interpolator_render::Value;

/// A format that [`check_record`](crate::check_record) accepts is read, but for the quotes around
/// fields, as its literals are, with the characters of each value as content between them: those of
/// a text itself, and those that debug shows of any other value. So it has the commas and the ends of
/// records that it has where every value shows the empty text. The quotes are in no field.
pub fn whole_fields_come_back<V: Value>()
    ensures read { (e : Environment V) (a : At) → StandsAsRecord a
        → (means (record_shows V.shows) e a).fault ≡ None
        → without_quotes (read_by Csv (text_of (means (record_shows V.shows) e a).text))
        ≡ fields_read field_start (record_parts V.shows e a) }
    ensures separators { (e : Environment V) (a : At) → StandsAsRecord a
        → (means (record_shows V.shows) e a).fault ≡ None
        → structure_of (without_quotes
        (read_by Csv (text_of (means (record_shows V.shows) e a).text)))
        ≡ structure_of (without_quotes (read_by Csv (text_of (means shows_nothing e a).text))) }
    ensures fields { (ts : List Token) → fields_of (without_quotes ts) ≡ fields_of ts }
{}

/// A list is a record, by the format `{row:i({:?})(,)}` with its values as whole fields: it is read
/// as a field for each item, which has the text that the item is, or that debug shows of it.
pub fn a_list_is_a_record_of_fields<V: Value>()
    ensures { (e : Environment V) (found item : Slots V) (others : List (Slots V))
        → slots_under e (codes "row") ≡ Some found → items found ≡ Some (item ∷ others)
        → (means (record_shows V.shows) e (outermost fields_format)).fault ≡ None
        → fields_of (read_by Csv
        (text_of (means (record_shows V.shows) e (outermost fields_format)).text))
        ≡ map (item_field V.shows) (item ∷ others) }
{}

/// Whole fields change no fault. So a format that has none with a sample has none as a record, in
/// any context that resembles the sample.
pub fn records_make_no_fault<V: Value>()
    ensures { (e : Environment V) (a : At)
        → (means (record_shows V.shows) e a).fault ≡ (means V.shows e a).fault }
{}
