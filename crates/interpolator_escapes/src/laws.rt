//! Laws of escapes and of their readers, each the contract of a small function.
ghost use Rattle.std.specs.Prelude.{◌≡◌, ℕ, List, [], ◌∷◌, ◌++◌, codes, None, Some, length, map};
ghost use Rattle.std.specs.Prelude.{◌≤◌, ◌*◌};
ghost use Rattle.std.specs.List.{filter};
ghost use Rattle.interpolator_syntax.specs.Places.{At, outermost, text_of};
ghost use Rattle.interpolator_eval.specs.Slots.{Slots, items};
ghost use Rattle.interpolator_eval.specs.Meaning.Environments.{Environment, slots_under};
ghost use Rattle.interpolator_eval.specs.Meaning.Meanings.{means};
ghost use Rattle.interpolator_escapes.specs.Escapes.{escape_of, html_escape, is_control};
ghost use Rattle.interpolator_escapes.specs.declared.escape.Escape.TheVariants.{Csv, Json, Line};
ghost use Rattle.interpolator_escapes.specs.Json.{between, json_step, is_json_place, JsonState};
ghost use Rattle.interpolator_escapes.specs.Readers.{KeepsPlaces, KeepsPlain, content};
ghost use Rattle.interpolator_escapes.specs.Languages.{language, read_by, read_parts_by, StandsIn};
ghost use Rattle.interpolator_escapes.specs.Lines.{control_step, everywhere};
ghost use Rattle.interpolator_escapes.specs.Html.{HtmlState, html_start, html_step, is_html_place};
ghost use Rattle.interpolator_escapes.specs.Csv.{field_start, quote_seen, csv_step, is_csv_place};
ghost use Rattle.interpolator_escapes.specs.Parts.{Part, literal, value, assembled, values_in};
ghost use Rattle.interpolator_escapes.specs.Parts.{InPlaces};
ghost use Rattle.interpolator_escapes.specs.FormatParts.{as_it_is, escaped_value, parts_by};
ghost use Rattle.interpolator_escapes.specs.FormatParts.{parts_of, plain_value};
ghost use Rattle.interpolator_escapes.specs.Records.{fields_of, quoted_record, row_format};
ghost use Rattle.interpolator_escapes.specs.Records.{item_text};
ghost use Rattle.interpolator_escapes.specs.WorkedParts.{shows_itself, echoes};
ghost use Rattle.interpolator_escapes.specs.Formats.{Stands, escaped_shows};
ghost use Rattle.interpolator_escapes.specs.{declared.escape.Escape.Escape, Wholes.json_string};
ghost use Rattle.interpolator_escapes.specs.Growth.{with_quotes};

use interpolator_render::Value;

/// Each escaped character is read as this character alone, and leaves the reader where it was. So
/// an escaped text, read in its place, is the text. Between strings of JSON, so does each character
/// that a number may have.
pub fn escaped_characters_are_read_back()
    ensures shown { (escape : Escape)
        → KeepsPlaces (language escape).step (language escape).is_place (escape_of escape) }
    ensures plain { (escape : Escape)
        → KeepsPlain (language escape).step (language escape).is_place (escape_of escape) }
{}

/// Where each value stands in a place, which the literals alone decide, what is read is what is
/// read in the literals, with the characters of each value as content between them.
pub fn values_come_back()
    ensures { (escape : Escape) (parts : List Part)
        → InPlaces (language escape).step (language escape).is_place (language escape).start parts
        → read_by escape (assembled (escape_of escape) parts) ≡ read_parts_by escape parts }
{}

/// A format without a fault means its parts, literals and values, one after the other. Escaped, it
/// means its parts with each value escaped; the values are the same, and the quotes of a whole value
/// of JSON are literals. Where each value stands in a place, what is read of this is what is read in
/// the literals, with the characters of each value, as it shows them under its trait and spec, cut and
/// padded, as content between them.
pub fn values_of_formats_come_back<V: Value>()
    ensures plain { (e : Environment V) (a : At) → (means V.shows e a).fault ≡ None
        → text_of (means V.shows e a).text
        ≡ assembled as_it_is (parts_of as_it_is (plain_value V.shows) e a) }
    ensures escaped { (escape : Escape) (e : Environment V) (a : At)
        → (means (escaped_shows escape V.shows) e a).fault ≡ None
        → text_of (means (escaped_shows escape V.shows) e a).text
        ≡ assembled (escape_of escape) (parts_by escape V.shows e a) }
    ensures values { (escape : Escape) (e : Environment V) (a : At)
        → values_in (parts_by escape V.shows e a)
        ≡ values_in (parts_of as_it_is (escaped_value escape V.shows) e a) }
    ensures read { (escape : Escape) (e : Environment V) (a : At) → StandsIn escape a
        → (means (escaped_shows escape V.shows) e a).fault ≡ None
        → read_by escape (text_of (means (escaped_shows escape V.shows) e a).text)
        ≡ read_parts_by escape (parts_by escape V.shows e a) }
{}

/// A text as a whole value of JSON is read as its characters between two quotes, whatever comes after
/// it.
pub fn a_string_is_read_back()
    ensures { (text rest : List ℕ) → read_by Json (json_string text ++ rest)
        ≡ content 34 ∷ (map content text ++ content 34 ∷ read_by Json rest) }
{}

/// A record of texts between quotes, each escaped, is read as these texts, one field each, up to the
/// end of its line or of the text, whatever comes after it.
pub fn a_record_is_read_back()
    ensures line { (text : List ℕ) (texts : List (List ℕ)) (rest : List ℕ)
        → fields_of (read_by Csv (quoted_record (text ∷ texts) ++ 10 ∷ rest)) ≡ text ∷ texts }
    ensures last { (text : List ℕ) (texts : List (List ℕ))
        → fields_of (read_by Csv (quoted_record (text ∷ texts))) ≡ text ∷ texts }
{}

/// A list is a record, by the format `"{row:i({})(",")}"` with its values escaped: it is read as a
/// field for each item, which has the text that the item displays.
pub fn a_list_is_a_record<V: Value>()
    ensures { (e : Environment V) (found item : Slots V) (others : List (Slots V))
        → slots_under e (codes "row") ≡ Some found → items found ≡ Some (item ∷ others)
        → (means (escaped_shows Csv V.shows) e (outermost row_format)).fault ≡ None
        → fields_of (read_by Csv
        (text_of (means (escaped_shows Csv V.shows) e (outermost row_format)).text))
        ≡ map (item_text V.shows) (item ∷ others) }
{}

/// A format without a control, written as a line, has none: no newline, no carriage return, no other
/// ASCII control, none of U+0080 to U+009F, no U+2028 or U+2029, no mark of direction. So it is one
/// line, whatever its values are.
pub fn a_line_stays_a_line<V: Value>()
    ensures { (e : Environment V) (a : At) → Stands control_step everywhere tt a tt
        → filter is_control a.text ≡ []
        → (means (escaped_shows Line V.shows) e a).fault ≡ None
        → filter is_control (text_of (means (escaped_shows Line V.shows) e a).text) ≡ [] }
{}

/// An escape changes no fault. So a format that has none with a sample has none escaped, in any
/// context that resembles the sample.
pub fn escapes_make_no_fault<V: Value>()
    ensures { (escape : Escape) (e : Environment V) (a : At)
        → (means (escaped_shows escape V.shows) e a).fault ≡ (means V.shows e a).fault }
{}

/// An escaped text has at most six characters for each of the plain one. So it costs at most six
/// times as many characters. Of JSON, so it has if a text that is plain under each trait is counted
/// with two quotes where it is written as a whole value.
pub fn at_most_six_characters_for_one<V: Value>()
    ensures others { (escape : Escape) (e : Environment V) (a : At) → (escape ≡ Json → ⊥)
        → length (means (escaped_shows escape V.shows) e a).text
        ≤ 6 * length (means V.shows e a).text }
    ensures all { (escape : Escape) (e : Environment V) (a : At)
        → length (means (escaped_shows escape V.shows) e a).text
        ≤ 6 * length (means (with_quotes escape V.shows) e a).text }
{}

/// The parts of formats, where each name has itself as its value, and the items `<` and `x`. Under a
/// width, what pads a list is a literal, as long as what is written lacks.
pub fn worked_parts()
    ensures page { parts_of html_escape (plain_value shows_itself) echoes
        (outermost (codes "<p id=\"{a}\">{{{b:>3}</p>"))
        ≡ literal (codes "<p id=\"") ∷ value (codes "a") ∷ literal (codes "\">") ∷ literal (codes "{")
        ∷ value (codes "  b") ∷ literal (codes "</p>") ∷ [] }
    ensures list { parts_of html_escape (plain_value shows_itself) echoes
        (outermost (codes "{l:i(<b>{}</b>)(, )}"))
        ≡ literal (codes "<b>") ∷ value (codes "<") ∷ literal (codes "</b>") ∷ literal (codes ", ")
        ∷ literal (codes "<b>") ∷ value (codes "x") ∷ literal (codes "</b>") ∷ [] }
    ensures padded { parts_of html_escape (plain_value shows_itself) echoes (outermost (codes "{l:>8i}"))
        ≡ literal (codes "   ") ∷ value (codes "<") ∷ value (codes "x") ∷ literal [] ∷ [] }
    ensures as_they_are { parts_of as_it_is (plain_value shows_itself) echoes (outermost (codes "{l:>8i}"))
        ≡ literal (codes "      ") ∷ value (codes "<") ∷ value (codes "x") ∷ literal [] ∷ [] }
{}

/// Formats whose values stand in places, at any depth of lists.
pub fn worked_places()
    ensures html { Stands html_step is_html_place html_start
        (outermost (codes "<p id=\"{a}\">{l:i(<b>{}</b>)(, )}")) html_start }
    ensures link { Stands html_step is_html_place html_start
        (outermost (codes "<a href=\"/{a}\">")) html_start }
    ensures after_title { Stands html_step is_html_place html_start
        (outermost (codes "<title>Fruit</title>{a}")) html_start }
    ensures csv { Stands csv_step is_csv_place field_start
        (outermost (codes "\"{a}\",\"{b:>9}\"")) quote_seen }
    ensures row { Stands csv_step is_csv_place field_start (outermost row_format) quote_seen }
    ensures json { Stands json_step is_json_place between
        (outermost (codes "{{\"a\":\"{a}\",\"n\":{n:>5?}}}")) between }
    ensures array { Stands json_step is_json_place between
        (outermost (codes "[{l:i({:?})(, )}]")) between }
    ensures lines { Stands control_step everywhere tt
        (outermost (codes "{time} C:\\{a:>9} {l:9i({})(, )}")) tt }
{}

/// Formats of HTML and of JSON with a value out of place: whatever state they end in, they do not
/// stand. Of JSON, a value between strings wants `?`, and no value in a string has it; nor is a number
/// with a `+` or zeros before it, or in base sixteen, one of JSON.
pub fn worked_refusals()
    ensures bare { (t : HtmlState) → Stands html_step is_html_place html_start
        (outermost (codes "<p id={a}>")) t → ⊥ }
    ensures whole_link { (t : HtmlState) → Stands html_step is_html_place html_start
        (outermost (codes "<a href=\"{a}\">")) t → ⊥ }
    ensures scheme { (t : HtmlState) → Stands html_step is_html_place html_start
        (outermost (codes "<a href=\"java{a}\">")) t → ⊥ }
    ensures event { (t : HtmlState) → Stands html_step is_html_place html_start
        (outermost (codes "<b onclick=\"{a}\">")) t → ⊥ }
    ensures style { (t : HtmlState) → Stands html_step is_html_place html_start
        (outermost (codes "<b style=\"{a}\">")) t → ⊥ }
    ensures title { (t : HtmlState) → Stands html_step is_html_place html_start
        (outermost (codes "<title>{a}</title>")) t → ⊥ }
    ensures script { (t : HtmlState) → Stands html_step is_html_place html_start
        (outermost (codes "<script>{a}</script>")) t → ⊥ }
    ensures comment { (t : HtmlState) → Stands html_step is_html_place html_start
        (outermost (codes "<!-- {a} -->")) t → ⊥ }
    ensures name { (t : HtmlState) → Stands html_step is_html_place html_start
        (outermost (codes "<{a}>")) t → ⊥ }
    ensures reference { (t : HtmlState) → Stands html_step is_html_place html_start
        (outermost (codes "&{a};")) t → ⊥ }
    ensures displayed { (t : JsonState) → Stands json_step is_json_place between
        (outermost (codes "[{n}]")) t → ⊥ }
    ensures quoted { (t : JsonState) → Stands json_step is_json_place between
        (outermost (codes "[\"{n:?}\"]")) t → ⊥ }
    ensures plus { (t : JsonState) → Stands json_step is_json_place between
        (outermost (codes "[{n:+?}]")) t → ⊥ }
    ensures zeros { (t : JsonState) → Stands json_step is_json_place between
        (outermost (codes "[{n:05?}]")) t → ⊥ }
    ensures fill { (t : JsonState) → Stands json_step is_json_place between
        (outermost (codes "[{n:*>5?}]")) t → ⊥ }
    ensures base_sixteen { (t : JsonState) → Stands json_step is_json_place between
        (outermost (codes "[{n:x?}]")) t → ⊥ }
{}
