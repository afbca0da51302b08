//! The form of a message, which the rule of a file chooses by numbers and texts.

ghost use Rattle.std.specs.Prelude.{◌≡◌, IfOk, string_bytes};
ghost use Rattle.std.specs.Option.{option_map};
ghost use Rattle.words.specs.{Items.texts_of, Declarations.as_declaration};
ghost use Rattle.catalogue.specs.Forms.{as_choice, as_sought, choice_of, choice_with, key_by};
ghost use Rattle.catalogue.specs.Forms.{key_of_form, or_form, rule_of};
ghost use Rattle.catalogue.specs.Rules.{declared_for};
ghost use Rattle.plurals.specs.Values.{as_form, as_lack};

use crate::entries::Object;
use crate::rules::{Named, declared_for, rule_in};
use plurals::{Form, Missing, ParseError, parse};
use std::alloc::{AllocError, Global};
use words::Declaration;

/// The form of a message that a rule chooses.
#[derive(Clone, Copy, Debug)]
pub struct Choice<'a> {
    pub form: Form<'a>,
    /// A number or a text that is missing: the form is then the one before the `:` of the test
    /// that needs it.
    pub lacks: Option<Declaration<'a>>,
}

/// The key of a message that is looked up.
#[derive(Drop)]
pub struct Sought<'a> {
    pub key: String,
    /// What is missing to choose its form, if anything is.
    pub lacks: Option<Declaration<'a>>,
}

/// What has to be given for what is missing, if anything is.
fn wanted_for(missing: Option<Missing<'_>>) -> Option<Declaration<'_>>
    ensures { option_map as_declaration result
        ≡ option_map declared_for (option_map as_lack missing.entry) }
{
    match missing {
        Some(missing) => Some(declared_for(missing)),
        None => None,
    }
}

/// What a rule chooses by the numbers and texts of objects; nothing, if it is broken.
fn choice_of<'a>(
    alloc: Global,
    objects: &[Object<'_>],
    rule: &'a str,
) -> Result<Option<Choice<'a>>, AllocError>
    ensures { IfOk result (λ choice. option_map as_choice choice ≡ choice_of objects.now rule.now) }
{
    let read = match parse(alloc, rule) {
        Ok(read) => read,
        Err(ParseError::Broken(_)) => return Ok(None),
        Err(ParseError::NoMemory) => return Err(AllocError),
    };
    let values = Named(objects);
    let lacks = wanted_for(read.missing(&values));
    match read.form(&values) {
        Some(form) => Ok(Some(Choice { form, lacks })),
        None => Ok(None),
    }
}

/// The rule of some lines, on the first that has one.
pub fn rule_of<'a>(lines: &[&'a str]) -> Option<&'a str>
    ensures { option_map (λ x. x.now) result ≡ rule_of (texts_of lines.now) }
{
    for line in lines {
        if let Some(rule) = rule_in(line) {
            return Some(rule);
        }
    }
    None
}

/// What the rule of some lines chooses, if they have one.
pub fn choice_in<'a>(
    alloc: Global,
    objects: &[Object<'_>],
    lines: &[&'a str],
) -> Result<Option<Choice<'a>>, AllocError>
    ensures { IfOk result (λ choice. option_map as_choice choice
        ≡ choice_with objects.now (rule_of (texts_of lines.now))) }
{
    match rule_of(lines) {
        Some(rule) => choice_of(alloc, objects, rule),
        None => Ok(None),
    }
}

/// A form, as it ends a key.
pub fn text_of_form(alloc: Global, form: Form<'_>) -> Result<String, AllocError>
    ensures { IfOk result (λ text. string_bytes text ≡ as_form form.entry) }
{
    match form {
        Form::Name(name) => String::from_str(alloc, name),
        Form::Number(number) => {
            let text = format!(in alloc; "{number}")?;
            Ok(text)
        }
    }
}

/// A key with the text of a form.
pub fn key_of_form(alloc: Global, key: &str, form: &str) -> Result<String, AllocError>
    ensures { IfOk result (λ whole. string_bytes whole ≡ key_of_form key.now form.now) }
{
    let whole = format!(in alloc; "{key}.{form}")?;
    Ok(whole)
}

/// A key with the form of a choice.
fn key_chosen(alloc: Global, key: &str, choice: &Choice<'_>) -> Result<String, AllocError>
    ensures { IfOk result (λ whole.
        string_bytes whole ≡ key_of_form key.now (as_form choice.now.form)) }
{
    let form = text_of_form(alloc, choice.form)?;
    key_of_form(alloc, key, form.as_str())
}

/// The key that is looked up: the key itself, or the form of it that is chosen.
pub fn key_by<'a>(
    alloc: Global,
    key: &str,
    choice: Option<Choice<'a>>,
) -> Result<Sought<'a>, AllocError>
    ensures { IfOk result (λ sought.
        as_sought sought ≡ key_by key.now (option_map as_choice choice.entry)) }
{
    match choice {
        None => Ok(Sought {
            key: String::from_str(alloc, key)?,
            lacks: None,
        }),
        Some(choice) => Ok(Sought {
            key: key_chosen(alloc, key, &choice)?,
            lacks: choice.lacks,
        }),
    }
}

/// What follows a key that is absent in a report: the form of it that was looked up, if one was.
pub fn or_form(alloc: Global, key: &str, choice: Option<Choice<'_>>) -> Result<String, AllocError>
    ensures { IfOk result (λ reported.
        string_bytes reported ≡ or_form key.now (option_map as_choice choice.entry)) }
{
    let Some(choice) = choice else {
        return Ok(String::new(alloc));
    };
    let whole = key_chosen(alloc, key, &choice)?;
    let reported = format!(in alloc; " or `{whole}`")?;
    Ok(reported)
}
