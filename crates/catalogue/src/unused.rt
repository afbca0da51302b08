//! Words that no message uses.

ghost use Rattle.std.specs.Prelude.{◌≡◌, ◌||◌, IfErr, IfOk, OnOk, filter, map, not, string_bytes};
ghost use Rattle.std.specs.{List.concat, List.list_any, Option.option_map, Str.bytes_eq, Str.chars};
ghost use Rattle.interpolator.specs.Faults.{answer_of, no_memory};
ghost use Rattle.interpolator_pieces.specs.NodeNames.{name_texts};
ghost use Rattle.plurals.specs.Trees.{tree_of};
ghost use Rattle.words.specs.{Declarations.as_declaration, Items.texts_of};
ghost use Rattle.catalogue.specs.Declarations.{declared_by, declared_in, is_among};
ghost use Rattle.catalogue.specs.Files.{as_line, lines_of, page_of};
ghost use Rattle.catalogue.specs.Unused.{asks, declares, first_name, format_asks, is_in, is_used};
ghost use Rattle.catalogue.specs.Unused.{name_of, names_of, rule_asks, report_of_unused};
ghost use Rattle.catalogue.specs.Unused.{reported_unused};
ghost use Rattle.catalogue.specs.Unused.{uses, with_name};
ghost use Rattle.catalogue.specs.{Formats.format_of, Lacks.each_once, Lacks.is_one_of};

use crate::declarations::{Heading, heading_of};
use crate::files::{File, Line, lines_of, page_of};
use crate::formats::format_of;
use crate::lines::{head_of, message_of};
use crate::rules::rule_in;
use interpolator::Error;
use plurals::{Expression, ParseError, parse};
use std::alloc::{AllocError, Global};
use words::{Declaration, declaration_of};

/// The name of a word: what is before its first `=`, without the sign of its kind.
fn name_of(word: &str) -> Option<&str>
    ensures { option_map (λ x. x.now) result ≡ name_of word.now }
{
    match head_of(word) {
        Some(head) => Some(declaration_of(head).name),
        None => None,
    }
}

/// Whether one of some names is this one.
fn has_name(names: &[&str], name: &str) -> bool
    ensures { result ≡ is_one_of (texts_of names.now) name.now }
{
    for one in names {
        if *one == name {
            return true;
        }
    }
    false
}

/// Adds a name, if there is one that is not there.
fn add_name<'a>(names: &mut Vec<&'a str>, name: Option<&'a str>) -> Result<(), AllocError>
    ensures { OnOk result (texts_of names.new.items
        ≡ with_name (texts_of names.old.items) (option_map (λ x. x.now) name.entry)) }
{
    match name {
        Some(name) if !has_name(names.as_slice(), name) => {
            names.push(name)?;
            Ok(())
        }
        _ => Ok(()),
    }
}

/// The names of words, each once, in their order.
fn names_of(alloc: Global, words: &[String]) -> Result<Vec<&str>, AllocError>
    ensures { IfOk result (λ names.
        texts_of names.items ≡ each_once (names_of (map string_bytes words.now))) }
{
    let mut names = Vec::new(alloc);
    for word in words {
        add_name(&mut names, name_of(word.as_str()))?;
    }
    Ok(names)
}

/// Whether a name is that of a number or a text in an expression.
fn is_in(name: &str, read: &Expression<'_>) -> bool
    ensures { result ≡ is_in name.now (tree_of read.now) }
{
    match read {
        Expression::Name(one) => *one == name,
        Expression::Number(_) => false,
        Expression::Not(a) => is_in(name, a),
        Expression::Group(a) => is_in(name, a),
        Expression::Remainder(a, _) => is_in(name, a),
        Expression::Binary(_, a, b) => is_in(name, a) || is_in(name, b),
        Expression::Choice(a, b, c) => is_in(name, a) || is_in(name, b) || is_in(name, c),
        Expression::Is(one, _) => *one == name,
        Expression::IsNot(one, _) => *one == name,
    }
}

/// Whether a rule asks for a name: it is that of a number or a text in its tests. A form that it
/// chooses has a name too, but no value.
fn asks(name: &str, rule: &Expression<'_>) -> bool
    ensures { result ≡ asks name.now (tree_of rule.now) }
{
    match rule {
        Expression::Group(a) => asks(name, a),
        Expression::Choice(test, a, b) => is_in(name, test) || asks(name, a) || asks(name, b),
        _ => false,
    }
}

/// Leaves out the names that a rule asks for.
fn leave_asked(left: &mut Vec<&str>, rule: &Expression<'_>)
    ensures { texts_of left.new.items
        ≡ filter (λ name. not (asks name (tree_of rule.now))) (texts_of left.old.items) }
{
    left.retain(|name| !asks(name, rule));
}

/// Leaves out the names that the rule of a line asks for, if it has one.
fn leave_rule(alloc: Global, left: &mut Vec<&str>, rule: Option<&str>) -> Result<(), Error>
    ensures left { OnOk result (texts_of left.new.items ≡ filter
        (λ name. not (rule_asks name (option_map (λ x. x.now) rule.entry)))
        (texts_of left.old.items)) }
    ensures refused { IfErr result (λ error. answer_of error ≡ no_memory) }
{
    let Some(rule) = rule else {
        return Ok(());
    };
    match parse(alloc, rule) {
        Ok(read) => {
            leave_asked(left, &read);
            Ok(())
        }
        Err(ParseError::Broken(_)) => Ok(()),
        Err(ParseError::NoMemory) => Err(Error::NoMemory),
    }
}

/// Whether a name is declared.
fn is_declared(name: &str, declared: &[Declaration<'_>]) -> bool
    ensures { result ≡ is_among (map as_declaration declared.now) name.now }
{
    for one in declared {
        if name == one.name {
            return true;
        }
    }
    false
}

/// Whether a heading declares a name.
fn declares(name: &str, heading: &Heading<'_>) -> bool
    ensures { result ≡ declares name.now (declared_by heading.now) }
{
    match heading {
        Heading::Declares(declared) => is_declared(name, declared.as_slice()),
        _ => false,
    }
}

/// Leaves out the names that a heading declares.
fn leave_declared(left: &mut Vec<&str>, heading: &Heading<'_>)
    ensures { texts_of left.new.items
        ≡ filter (λ name. not (declares name (declared_by heading.now))) (texts_of left.old.items) }
{
    left.retain(|name| !declares(name, heading));
}

/// Whether a text is this name.
pub fn is_name(text: &str, name: &str) -> bool
    ensures { result ≡ bytes_eq (chars text.now) (chars name.now) }
{
    text == name
}

/// Whether a name is one of these.
fn is_among_names(name: &str, names: &[String]) -> bool
    ensures { result
        ≡ list_any (λ one. bytes_eq one (chars name.now)) (name_texts names.now) }
{
    for one in names {
        if is_name(one.as_str(), name) {
            return true;
        }
    }
    false
}

/// Leaves out some names.
fn leave_names(left: &mut Vec<&str>, names: &[String])
    ensures { texts_of left.new.items ≡ filter (λ name. not
        (list_any (λ one. bytes_eq one (chars name)) (name_texts names.now)))
        (texts_of left.old.items) }
{
    left.retain(|name| !is_among_names(name, names));
}

/// Leaves out the names for which the format of a line asks.
fn leave_format(alloc: Global, left: &mut Vec<&str>, line: &Line<'_, '_>) -> Result<(), Error>
    ensures left { OnOk result (texts_of left.new.items ≡ filter
        (λ name. not (format_asks name (format_of (as_line line.now)))) (texts_of left.old.items)) }
    ensures refused { IfErr result (λ error. answer_of error ≡ no_memory) }
{
    match format_of(alloc, line)? {
        Ok(template) => {
            let names = template.names(alloc)?;
            leave_names(left, names.as_slice());
            Ok(())
        }
        Err(_) => Ok(()),
    }
}

/// Leaves out the names that the message of a line declares, or for which its format asks.
fn leave_message(
    alloc: Global,
    left: &mut Vec<&str>,
    line: &Line<'_, '_>,
    head: &str,
) -> Result<(), Error>
    ensures left { OnOk result (texts_of left.new.items ≡ filter (λ name. not
        (declares name (declared_in head.now) || format_asks name (format_of (as_line line.now))))
        (texts_of left.old.items)) }
    ensures refused { IfErr result (λ error. answer_of error ≡ no_memory) }
{
    let (_, heading) = heading_of(alloc, head)?;
    leave_declared(left, &heading);
    leave_format(alloc, left, line)
}

/// Leaves out the names that a line uses: those that its rule asks for, or its declarations and its
/// format.
fn leave_line(alloc: Global, left: &mut Vec<&str>, line: &Line<'_, '_>) -> Result<(), Error>
    ensures left { OnOk result (texts_of left.new.items
        ≡ filter (λ name. not (uses name (as_line line.now))) (texts_of left.old.items)) }
    ensures refused { IfErr result (λ error. answer_of error ≡ no_memory) }
{
    match message_of(line.text) {
        Some(head) => leave_message(alloc, left, line, head),
        None => leave_rule(alloc, left, rule_in(line.text)),
    }
}

/// Leaves out the names that some lines use.
fn leave_lines(alloc: Global, left: &mut Vec<&str>, lines: &[Line<'_, '_>]) -> Result<(), Error>
    ensures left { OnOk result (texts_of left.new.items
        ≡ filter (λ name. not (is_used name (map as_line lines.now))) (texts_of left.old.items)) }
    ensures refused { IfErr result (λ error. answer_of error ≡ no_memory) }
{
    for line in lines {
        if left.is_empty() {
            return Ok(());
        }
        leave_line(alloc, left, line)?;
    }
    Ok(())
}

/// Leaves out the names that a file uses.
fn leave_file(alloc: Global, left: &mut Vec<&str>, file: &File) -> Result<(), Error>
    ensures left { OnOk result (texts_of left.new.items
        ≡ filter (λ name. not (is_used name (lines_of (page_of file.now))))
        (texts_of left.old.items)) }
    ensures refused { IfErr result (λ error. answer_of error ≡ no_memory) }
{
    let page = page_of(alloc, file)?;
    let lines = lines_of(alloc, &page)?;
    leave_lines(alloc, left, lines.as_slice())
}

/// The name of the first of some files.
fn first_name(files: &[File]) -> &str
    ensures { result.now ≡ first_name (map page_of files.now) }
{
    match files.first() {
        Some(file) => file.name.as_str(),
        None => "",
    }
}

/// Reports that no message of a file uses a name.
fn reported_unused(alloc: Global, file: &str, name: &str) -> Result<String, AllocError>
    ensures { IfOk result (λ reported. string_bytes reported ≡ reported_unused file.now name.now) }
{
    let reported = format!(in alloc; "{file}: no message uses `{name}`\n")?;
    Ok(reported)
}

/// Reports that no message of a file uses some names, for each a line.
fn report_of_names(alloc: Global, file: &str, names: &[&str]) -> Result<String, AllocError>
    ensures { IfOk result (λ reported.
        string_bytes reported ≡ concat (map (reported_unused file.now) (texts_of names.now))) }
{
    let mut reported = String::new(alloc);
    for name in names {
        let more = reported_unused(alloc, file, name)?;
        reported.push_str(more.as_str())?;
    }
    Ok(reported)
}

/// Reports the names of words that no message of some files uses and no rule asks for, for each a
/// line.
///
/// # Errors
///
/// `NoMemory`.
pub fn unused(alloc: Global, files: &[File], words: &[String]) -> Result<String, Error>
    ensures reported { IfOk result (λ reported. string_bytes reported
        ≡ report_of_unused (map page_of files.now) (map string_bytes words.now)) }
    ensures refused { IfErr result (λ error. answer_of error ≡ no_memory) }
{
    let mut left = names_of(alloc, words)?;
    for file in files {
        leave_file(alloc, &mut left, file)?;
    }
    let reported = report_of_names(alloc, first_name(files), left.as_slice())?;
    Ok(reported)
}
