//! Formats whose values stand in places, and formats of which one does not, by the definitions of
//! the readers.

use interpolator_escapes::{Ending, Escape, Misplaced, PlaceError, Why, check_format};

/// A format, and the place of what does not stand in it.
type Row = (&'static str, Option<(usize, Why)>);

/// Asserts that each row is answered so.
macro_rules! assert_rows {
    ($rt:expr, $escape:expr, $rows:expr) => {
        for (text, wanted) in $rows {
            let wanted = match wanted {
                Some((place, why)) => Err(PlaceError::Misplaced(Misplaced { place, why })),
                None => Ok(()),
            };
            let found = match check_format($rt.alloc(), $escape, text) {
                Ok(_) => Ok(()),
                Err(error) => Err(error),
            };
            assert_eq!($rt; found, wanted, "{text:?}");
        }
    };
}

const CSV: [Row; 16] = [
    ("", None),
    ("a,b\n", None),
    ("\"{a}\",\"{b:>9}\"", None),
    ("\"{{{a}}}\",b", None),
    ("\"a\"\"{a}\"", None),
    ("\"{l:i(<{}>)(, )}\"", None),
    ("\"{l:i#({:i({})(-)})#(, )}\"", None),
    ("{l:i(\"{}\")()}", Some((0, Why::Item))),
    ("\"a\"{l:i(,\"{}\")}", None),
    ("\"{l:,>9i}\"", None),
    ("\"{l:\">9i}\"", Some((1, Why::Fill))),
    ("{a}", Some((0, Why::Value))),
    ("\"x\",{a},\"y\"", Some((4, Why::Value))),
    ("\"a\"{a}", Some((3, Why::Value))),
    ("\"{l:i({}\")(\")}\"", Some((1, Why::Item))),
    ("\"{l:i({})(\",{m:i}\")}{a}\"", Some((12, Why::Value))),
];

const JSON: [Row; 29] = [
    ("{{\"name\":\"{a}\"}}", None),
    ("[{l:i(\"{}\")(,)}]", None),
    ("\"\\n{a}\"", None),
    ("\"\\u00e9{a}\"", None),
    ("\"\\u00e{l:i()()}9{a}\"", None),
    ("\"\\u0{l:i(0\"\"\\u0)(0\"\"\\U0\\u0)}000{a}\"", None),
    ("\"\\ua{l:i(0\"\"\\uA)}000{a}\"", None),
    ("\"\\u1{l:i(0\"\"\\u2)}00\"", Some((4, Why::Item))),
    ("\"\\{a}\"", Some((2, Why::Value))),
    ("\"\\u{a}0000\"", Some((3, Why::Value))),
    ("\"\\u00e{a}9\"", Some((6, Why::Value))),
    ("{{\"n\":{a}}}", Some((6, Why::Value))),
    ("[{l:i(,)(\"{}\",{})}]", Some((14, Why::Value))),
    ("\"{l:i({})(\")}\"", Some((1, Why::Join))),
    ("\"{l:\\>9i}\"", Some((1, Why::Fill))),
    ("\"{l:\n>9i}\"", Some((1, Why::Fill))),
    ("\"{l:\u{7f}>9i}\"", None),
    ("{{\"n\":{a:?},\"t\":[{b:?}]}}", None),
    ("[{a:.2?},{b:<8?},{c: ^9?}]", None),
    ("[{l:i({:?})(, )}]", None),
    ("[{l:9i({:?})(, )}]", None),
    ("\"{a:?}\"", Some((1, Why::Value))),
    ("[{a:?},{b}]", Some((7, Why::Value))),
    ("[{a:+?}]", Some((1, Why::Value))),
    ("[{a:05?}]", Some((1, Why::Value))),
    ("[{a:*>5?}]", Some((1, Why::Value))),
    ("[{a:x?}]", Some((1, Why::Value))),
    ("[{a:e}]", Some((1, Why::Value))),
    ("[{l:,>9i({:?})(, )}]", Some((1, Why::Fill))),
];

const SHELL: [Row; 9] = [
    ("ls '{a}' '{b}'", None),
    ("ls{l:i( '{}')}", None),
    ("echo \\'a '{a}'", None),
    ("ls {a}", Some((3, Why::Value))),
    ("ls \"{a}\"", Some((4, Why::Value))),
    ("echo $HOME '{a}'", Some((12, Why::Value))),
    ("ls '{l:i({})(' ')}'", None),
    ("ls '{l:i({})(')}'", Some((4, Why::Join))),
    ("ls '{l:'>9i}'", Some((4, Why::Fill))),
];

const CONTROLS: [Row; 7] = [
    ("{time} C:\\{a:>9} {l:9i({})(, )}", None),
    ("{a}\n{b}\u{85}", None),
    ("{l:i({}\n)(\r)}", None),
    ("{l:\n>i}", None),
    ("{l:\u{85}>9i}", Some((0, Why::Fill))),
    ("ab{{{l:\n^9i#({m:i({:i})})#}", Some((4, Why::Fill))),
    ("{l:i({m:\t<9i})}", Some((5, Why::Fill))),
];

const PAGES: [Row; 25] = [
    ("<p id=\"{a}\">{l:i(<b>{})(, )}", None),
    ("<a href=\"/{a}\">", None),
    ("<a href=\"HTTPS:{a}\">", None),
    ("<a href=\"x?{a}&amp;b={b}\">", None),
    ("<title>Fruit</title>{a}", None),
    ("&lt;{a}", None),
    ("a & b {c}", None),
    ("1 < 2 {a}", None),
    ("</p>{a}", None),
    ("<a b{l:i(><a b)}>{c}", None),
    ("<a{l:i(><A)}>", None),
    ("<p title='{a}' class={l:i()}\"{b}\">", None),
    ("<a title='x{l:i(y)}'>", None),
    ("<script>x</script>{a}", None),
    ("<SCRIPT>x</Script >{a}", None),
    ("<style>p{{}}<{l:i(<)}/style>{a}", None),
    ("<style></s{l:i()}tyle>{a}", None),
    ("<!-- c -->{a}", None),
    ("<!doctype html>{a}", None),
    ("{l:->9i}", None),
    ("{l:<>9i}", Some((0, Why::Fill))),
    ("{l:&>9i}", Some((0, Why::Fill))),
    ("<a b{l:i(><a c)}>", Some((4, Why::Item))),
    ("<a b{l:i(><i b)}>", Some((4, Why::Item))),
    ("<p>{l:i(<i>{}</i)}", Some((3, Why::Item))),
];

const REFUSED_PAGES: [Row; 19] = [
    ("<p id={a}>", Some((6, Why::Value))),
    ("<a href=\"{a}\">", Some((9, Why::Value))),
    ("<a href=\"java{a}\">", Some((13, Why::Value))),
    ("<a href=\"javascript:{a}\">", Some((20, Why::Value))),
    ("<a href=\"/x\" data=\"{a}\">", Some((19, Why::Value))),
    ("<a href=\"a&amp;/{a}\">", Some((16, Why::Value))),
    ("<b onclick=\"{a}\">", Some((12, Why::Value))),
    ("<b style=\"{a}\">", Some((10, Why::Value))),
    ("<title>{a}</title>", Some((7, Why::Value))),
    ("<script>{a}</script>", Some((8, Why::Value))),
    ("<!-- {a} -->", Some((5, Why::Value))),
    ("<{a}>", Some((1, Why::Value))),
    ("&{a};", Some((1, Why::Value))),
    ("<plaintext>{a}", Some((11, Why::Value))),
    ("<textarea>a<b{c}", Some((13, Why::Value))),
    ("<a href='x{l:i(y)}'>", Some((10, Why::Item))),
    ("<a href='x{l:i()(y)}'>", Some((10, Why::Join))),
    ("&#{l:i()(3)}9;", Some((2, Why::Join))),
    ("<style></s{l:i(t)}yle>", Some((10, Why::Item))),
];

const ENDINGS: [(Escape, &str, Ending); 20] = [
    (Escape::Csv, "", Ending::Beginning),
    (Escape::Csv, "\"{a}\"\n", Ending::Beginning),
    (Escape::Csv, "\"{a}\",", Ending::Beginning),
    (Escape::Csv, "\"{a}", Ending::Place),
    (Escape::Csv, "\"{a}\"", Ending::Elsewhere),
    (Escape::Csv, "\"{a}\",b", Ending::Elsewhere),
    (Escape::Html, "<p>{a}</p>\n", Ending::Beginning),
    (Escape::Html, "<p id=\"{a}", Ending::Place),
    (Escape::Html, "<a href=\"", Ending::Elsewhere),
    (Escape::Html, "<p>{a}</p", Ending::Elsewhere),
    (Escape::Html, "{a}<script>", Ending::Elsewhere),
    (Escape::Html, "{a} &amp", Ending::Elsewhere),
    (Escape::Json, "{{\"a\":\"{a}\"}}", Ending::Beginning),
    (Escape::Json, "\"{a}", Ending::Place),
    (Escape::Json, "\"{a}\\", Ending::Elsewhere),
    (Escape::Shell, "ls '{a}'\n", Ending::Beginning),
    (Escape::Shell, "ls '{a}", Ending::Place),
    (Escape::Shell, "ls '{a}' \\", Ending::Elsewhere),
    (Escape::Shell, "ls '{a}' #", Ending::Elsewhere),
    (Escape::Line, "{a}\r", Ending::Beginning),
];

#[test]
fn formats_of_csv(rt: HostRuntime) {
    assert_rows!(rt, Escape::Csv, CSV);
}

#[test]
fn formats_of_json(rt: HostRuntime) {
    assert_rows!(rt, Escape::Json, JSON);
}

#[test]
fn formats_of_a_shell(rt: HostRuntime) {
    assert_rows!(rt, Escape::Shell, SHELL);
}

#[test]
fn formats_of_a_line(rt: HostRuntime) {
    assert_rows!(rt, Escape::Line, CONTROLS);
}

#[test]
fn formats_of_a_page(rt: HostRuntime) {
    assert_rows!(rt, Escape::Html, PAGES);
    assert_rows!(rt, Escape::Html, REFUSED_PAGES);
}

#[test]
fn formats_end(rt: HostRuntime) {
    for (escape, text, wanted) in ENDINGS {
        assert_eq!(rt;
            check_format(rt.alloc(), escape, text),
            Ok(wanted),
            "{text:?}"
        );
    }
}

#[test]
fn what_does_not_stand_in_words(rt: HostRuntime) {
    let misplaced = Misplaced {
        place: 6,
        why: Why::Value,
    };
    let error = PlaceError::Misplaced(misplaced);
    let text = format!(in rt.alloc(); "{misplaced:9}|{error}|{}", PlaceError::NoMemory);
    match text {
        Ok(text) => assert_eq!(rt;
            text.as_str(),
            "at 6: this value is out of place|at 6: this \
            value is out of place|out of memory"
        ),
        Err(_) => assert!(rt; false),
    }
}
