//! Laws of formats whose values are written escaped, each the contract of a small function.

ghost use Rattle.std.specs.Prelude.{◌≡◌, ◌⊎◌, List, [], ◌∷◌, Some, IfOk, codes, map, string_bytes};
ghost use Rattle.std.specs.{List.filter, Str.chars};
ghost use Rattle.interpolator_syntax.specs.Places.{outermost, text_of};
ghost use Rattle.interpolator_syntax.specs.Faults.{no_memory, result_answer};
ghost use Rattle.interpolator_eval.specs.Slots.{Slots, items};
ghost use Rattle.interpolator_eval.specs.{Meaning.Environments.environment, Meaning.Meanings.means};
ghost use Rattle.interpolator_escapes.specs.Languages.{PairedIn, read_by, read_parts_by};
ghost use Rattle.interpolator_escapes.specs.Records.{fields_of, item_text, row_format};
ghost use Rattle.interpolator_escapes.specs.declared.escape.Escape.TheVariants.{Csv, Line};
ghost use Rattle.interpolator_escapes.specs.{Placing.structure_by, Escapes.is_control};
ghost use Rattle.interpolator_escapes.specs.{FormatParts.parts_by, Formats.shows_nothing};

use interpolator::{EscapedTemplate, Interpolate};
use interpolator_escapes::laws as meanings;
use interpolator_escapes::place_laws::accepted_formats_keep_structure;
use interpolator_eval::Context;
use interpolator_syntax::Error;
use std::alloc::Global;

/// The text of an escaped format, read as its escape's reader reads it, has the structure that it has
/// if every value shows the empty text: the same tags, fields or words, the same brackets, colons and
/// commas of JSON, or, of a line, the
/// same controls. So no value leaves its place, whatever the values are, at any depth of lists.
///
/// # Errors
///
/// The format's first fault, or `NoMemory`.
///
/// # Example
///
/// ```text
/// // `<p title="{name}">{l:i(<b>{}</b>)}</p>`, with `"><script>` under `name` and items of any text:
/// // one paragraph with one attribute, and a bold text for each item
/// ```
pub fn no_value_leaves_its_place<C: Context>(
    alloc: Global,
    page: &EscapedTemplate,
    context: &C,
) -> Result<String, Error>
    ensures { IfOk result (λ text. structure_by page.now.escape (chars (string_bytes text))
        ≡ structure_by page.now.escape (text_of (means shows_nothing
        (environment (C.finds context.now)) (outermost (chars page.now.text))).text)) }
{
    page.template();
    accepted_formats_keep_structure::<C::Object>();
    page.format(alloc, context)
}

/// The text of an escaped format, read as its escape's reader reads it, is what is read of its
/// literals, and in the place of each value what the value shows, character by character, as content:
/// under its trait and spec, cut to its precision and padded to its width. So a reader has every value
/// back, at any depth of lists. The fill of a list under a width is a literal.
///
/// A line is read back if no value stands after a backslash of the format that is no pair: of
/// `C:\\{a}`, not of `C:\{a}`.
///
/// # Errors
///
/// The format's first fault, or `NoMemory`.
///
/// # Example
///
/// ```text
/// // `"{a:.4}","{b:>3}"` as CSV, with `5" nail` under `a` and `it` under `b`: "5"" n"," it", of which a
/// // reader has `5" n` between the first quotes and ` it` between the others
/// ```
pub fn values_come_back<C: Context>(
    alloc: Global,
    page: &EscapedTemplate,
    context: &C,
) -> Result<String, Error>
    ensures { PairedIn page.now.escape (outermost (chars page.now.text))
        → IfOk result (λ text. read_by page.now.escape (chars (string_bytes text))
        ≡ read_parts_by page.now.escape (parts_by page.now.escape C.Object.shows
        (environment (C.finds context.now)) (outermost (chars page.now.text)))) }
{
    page.template();
    meanings::values_of_formats_come_back::<C::Object>();
    page.format(alloc, context)
}

/// A list, by the format `"{row:i({})(",")}"` written as CSV, is a record that is read as one field
/// for each item, however many there are. Each field has the text that its item displays.
///
/// # Errors
///
/// The format's first fault, or `NoMemory`.
///
/// # Example
///
/// ```text
/// // with `5" nail`, `a,b` and the empty text under `row`: "5"" nail","a,b","", which has three fields
/// ```
pub fn a_list_is_a_record<C: Context>(
    alloc: Global,
    page: &EscapedTemplate,
    context: &C,
) -> Result<String, Error>
    ensures { (found item : Slots C.Object) (others : List (Slots C.Object))
        → page.now.escape ≡ Csv → chars page.now.text ≡ row_format
        → C.finds context.now (codes "row") ≡ Some found → items found ≡ Some (item ∷ others)
        → IfOk result (λ text. fields_of (read_by Csv (chars (string_bytes text)))
        ≡ map (item_text C.Object.shows) (item ∷ others)) }
{
    meanings::a_list_is_a_record::<C::Object>();
    page.format(alloc, context)
}

/// A format without a control, written as a line, is one line, whatever its values are: it has no
/// newline, no carriage return, no other ASCII control, none of U+0080 to U+009F, no U+2028 or U+2029,
/// and no mark of direction.
///
/// # Errors
///
/// The format's first fault, or `NoMemory`.
///
/// # Example
///
/// ```text
/// // `user {name}`, with `a`, a newline and `root` under `name`: user a\nroot
/// ```
pub fn a_line_stays_a_line<C: Context>(
    alloc: Global,
    page: &EscapedTemplate,
    context: &C,
) -> Result<String, Error>
    ensures { page.now.escape ≡ Line → filter is_control (chars page.now.text) ≡ []
        → IfOk result (λ text. filter is_control (chars (string_bytes text)) ≡ []) }
{
    page.template();
    meanings::a_line_stays_a_line::<C::Object>();
    page.format(alloc, context)
}

/// Returns what a format returns as it is, and escaped: the same fault at the same place, or two
/// texts. Only memory may run out for one of the two. So an escape makes no fault, and what a sample
/// says of a format holds escaped.
///
/// # Example
///
/// ```text
/// // `<b>{a}{missing}</b>`: twice MissingValue("missing", 7)
/// ```
pub fn an_escape_makes_no_fault<C: Interpolate>(
    alloc: Global,
    page: &EscapedTemplate,
    context: &C,
) -> (Result<String, Error>, Result<String, Error>)
    ensures { (result_answer result.0 ≡ Some no_memory) ⊎ (result_answer result.1 ≡ Some no_memory)
        ⊎ (result_answer result.0 ≡ result_answer result.1) }
{
    meanings::escapes_make_no_fault::<C::Object>();
    let plain = context.format_template(alloc, page.template());
    let escaped = context.format_page(alloc, page);
    (plain, escaped)
}
