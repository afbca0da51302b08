//! Rows of rules: what C makes of them, what CLDR's samples choose, and where broken ones are broken.

ghost use Rattle.std.specs.{Prelude.Some, Option.option_map};

use plurals::{Fault, Form, Missing, ParseError, Problem, Values, parse};
use std::test::Fail;

const RUSSIAN: &str = "n % 10 == 1 && n % 100 != 11 ? one \
    : n % 10 >= 2 && n % 10 <= 4 && (n % 100 < 12 || n % 100 > 14) ? few : many";

const ARABIC: &str = "n==0?zero:n==1?one:n==2?two:n%100>=3&&n%100<=10?few:n%100>=11?many:other";

/// A rule, a number and the form.
const FORMS: [(&str, u128, &str); 14] = [
    (RUSSIAN, 1, "one"),
    (RUSSIAN, 21, "one"),
    (RUSSIAN, 11, "many"),
    (RUSSIAN, 111, "many"),
    (RUSSIAN, 24, "few"),
    (RUSSIAN, 12, "many"),
    (RUSSIAN, 0, "many"),
    (ARABIC, 0, "zero"),
    (ARABIC, 2, "two"),
    (ARABIC, 103, "few"),
    (ARABIC, 111, "many"),
    (ARABIC, 1000000, "other"),
    ("(n ? (some) : none)", 5, "some"),
    ("n ? n > 1 ? a : b : c", 0, "c"),
];

/// An expression, a number and the value that C gives it.
const VALUES: [(&str, u128, u128); 10] = [
    ("n%10==1 && n%100!=11 ? 0 : 1", 21, 0),
    ("n != 1", 1, 0),
    ("!n % 2", 4, 0),
    ("!(n % 2)", 4, 1),
    ("1 || 0 && 0", 0, 1),
    ("3 > 2 > 1", 0, 0),
    ("1 == 1 < 2", 0, 1),
    ("n % 100 % 7", 115, 1),
    ("0 ? 1 : 0 ? 2 : 3", 0, 3),
    ("1 ? 0 ? 4 : 5 : 6", 0, 5),
];

/// A text that is no rule, the byte and the problem.
const FAULTS: [(&str, usize, Problem); 19] = [
    ("", 0, Problem::Operand),
    ("n == ", 5, Problem::Operand),
    ("n = 1", 2, Problem::Token),
    ("n % 0 == 1", 2, Problem::Divisor),
    ("n % m", 2, Problem::Divisor),
    ("18446744073709551616", 0, Problem::Token),
    ("n n", 2, Problem::Operator),
    ("(n", 2, Problem::Unfinished),
    ("n ? 1", 5, Problem::Unfinished),
    ("n)", 1, Problem::Operator),
    ("(n : 1)", 3, Problem::Operator),
    ("n ? (1 : 2)", 7, Problem::Operator),
    ("n == 'f", 5, Problem::Quote),
    ("n != '", 5, Problem::Quote),
    ("n < 'f'", 4, Problem::Text),
    ("'f' == n", 0, Problem::Text),
    ("1 == 'f'", 5, Problem::Text),
    ("n == 1 ? 'f' : g", 9, Problem::Text),
    ("n == 'f' 'g'", 9, Problem::Text),
];

/// An expression, the text of `g` and the value.
const TEXTS: [(&str, &str, u128); 12] = [
    ("g == 'f'", "f", 1),
    ("g == 'f'", "m", 0),
    ("g != 'f'", "f", 0),
    ("g!='f'", "", 1),
    ("g\t==''", "", 1),
    ("g == '? :'", "? :", 1),
    ("!g == 'f'", "f", 0),
    ("g == 'f' == 1", "f", 1),
    ("g == 'f' && n == 7", "f", 1),
    ("n == 7 && g == 'f'", "m", 0),
    ("it's == 'é'", "é", 1),
    ("g == 'f' ? 3 : g == 'm' ? 4 : 5", "m", 4),
];

/// A rule, the text of `g`, if it has one, the form and what is missing for it.
const CHOICES: [(&str, Option<&str>, &str, Option<Missing<'static>>); 5] = [
    (SHE, Some("f"), "she", None),
    (SHE, Some("m"), "he", None),
    (SHE, Some("F"), "they", None),
    (SHE, None, "she", Some(Missing::Text("g"))),
    ("n == 7 && g != 'f' ? a : b", Some("f"), "b", None),
];

const SHE: &str = "g == 'f' ? she : g == 'm' ? he : they";

/// A text under each name, if there is one, and the number 7 under each.
#[derive(Clone, Copy)]
struct One<'a>(Option<&'a str>);

impl Values for One<'_> {
    ghost number = { λ one name. Some 7 };

    ghost text = { λ one name. option_map (λ x. x.now) one.0 };

    fn number(&self, _name: &str) -> Option<u128> {
        Some(7)
    }

    fn text(&self, _name: &str) -> Option<&str> {
        self.0
    }
}

#[test]
fn forms(rt: HostRuntime) -> Result<(), Fail> {
    for (rule, number, form) in FORMS {
        let read = parse(rt.alloc(), rule)?;
        assert_eq!(rt; read.form(&number), Some(Form::Name(form)));
    }
    Ok(())
}

#[test]
fn values(rt: HostRuntime) -> Result<(), Fail> {
    for (rule, number, value) in VALUES {
        let read = parse(rt.alloc(), rule)?;
        assert_eq!(rt; read.value(&number), value);
    }
    Ok(())
}

#[test]
fn faults(rt: HostRuntime) -> Result<(), Fail> {
    for (rule, place, problem) in FAULTS {
        let wanted = ParseError::Broken(Fault { place, problem });
        assert_eq!(rt; parse(rt.alloc(), rule).err(), Some(wanted));
    }
    Ok(())
}

#[test]
fn texts(rt: HostRuntime) -> Result<(), Fail> {
    for (rule, text, value) in TEXTS {
        let read = parse(rt.alloc(), rule)?;
        assert_eq!(rt; read.value(&One(Some(text))), value);
    }
    Ok(())
}

#[test]
fn choices(rt: HostRuntime) -> Result<(), Fail> {
    for (rule, text, form, missing) in CHOICES {
        let read = parse(rt.alloc(), rule)?;
        assert_eq!(rt; read.form(&One(text)), Some(Form::Name(form)));
        assert_eq!(rt; read.missing(&One(text)), missing);
    }
    Ok(())
}
