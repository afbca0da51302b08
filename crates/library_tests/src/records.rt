//! Formats of whole fields and their texts. Each text was read back by Python's csv.

use interpolator_escapes::{Ending, Misplaced, PlaceError, RecordEscaper, Why, check_record};
use interpolator_eval::Escaper;
use interpolator_render::{Bits, Spec, TextBuffer, Trait, Value, View};
use std::alloc::Global;

/// A format, and where it ends, or the place of what does not stand, and why.
type Row = (&'static str, Result<Ending, (usize, Why)>);

const ROWS: [Row; 40] = [
    ("", Ok(Ending::Beginning)),
    ("{name:?},{price:?}", Ok(Ending::Elsewhere)),
    ("{name:?},{price:?}\n", Ok(Ending::Beginning)),
    ("{name:?}\r\n{price:.2?},,x\n", Ok(Ending::Beginning)),
    ("x,{name:?}", Ok(Ending::Elsewhere)),
    (
        "\"{first} {last}\",{price:>9?},\"x\"\"y\"\n",
        Ok(Ending::Beginning),
    ),
    ("\"{a}\",\"{b:>9}", Ok(Ending::Place)),
    ("{a:?}{b:?}", Err((5, Why::Value))),
    ("{a:?}x", Err((0, Why::Value))),
    (",{a:?}\"", Err((1, Why::Value))),
    ("{a:?} ,x", Err((0, Why::Value))),
    ("{a:?};{b:?}", Err((0, Why::Value))),
    ("x{a:?}", Err((1, Why::Value))),
    (" {a:?}", Err((1, Why::Value))),
    ("\"x\"{a:?}", Err((3, Why::Value))),
    ("\"{a:?}\"", Err((1, Why::Value))),
    ("{a}", Err((0, Why::Value))),
    ("{a:?},{b}", Err((6, Why::Value))),
    ("{a:+?}", Err((0, Why::Value))),
    ("{a:05?}", Err((0, Why::Value))),
    ("{a:*>5?}", Err((0, Why::Value))),
    ("{a:x?}", Err((0, Why::Value))),
    ("{l:i({:?})(,)}\n", Ok(Ending::Beginning)),
    ("{a:?},{l:i({:?})(,)}", Ok(Ending::Elsewhere)),
    ("{a:?}{l:i(,{:?})}\n", Ok(Ending::Beginning)),
    ("{l:i({:?},{:?}\n)}", Ok(Ending::Beginning)),
    ("{l:i({m:i({:?})(,)})(\n)}", Ok(Ending::Elsewhere)),
    ("\"{l:i({})(, )}\"", Ok(Ending::Elsewhere)),
    ("\"{l:i({})(\",\")}\"", Ok(Ending::Elsewhere)),
    ("{l:i({:?})}", Err((0, Why::Join))),
    ("{l:i({:?})(;)}", Err((5, Why::Value))),
    ("{l:i({:?})(,)}x", Err((5, Why::Value))),
    ("{l:i({:?})(,)}{a:?}", Err((14, Why::Value))),
    ("{l:i({:?})(,\")}", Err((0, Why::Join))),
    ("{l:i(\"{}\")(,)}", Err((0, Why::Item))),
    ("{l:i}", Err((0, Why::Value))),
    ("{l:9i({:?})(,)}", Err((0, Why::Value))),
    ("{l:i(x)(,)}", Err((0, Why::Item))),
    ("5\" nails,{a:?}\n", Ok(Ending::Beginning)),
    ("5\" \"nails\",{a}", Err((11, Why::Value))),
];

#[test]
fn formats_of_records(rt: HostRuntime) {
    for (text, wanted) in ROWS {
        let wanted = match wanted {
            Ok(ending) => Ok(ending),
            Err((place, why)) => Err(PlaceError::Misplaced(Misplaced { place, why })),
        };
        assert_eq!(rt; check_record(rt.alloc(), text), wanted, "{text:?}");
    }
}

/// A view under a trait, and what is written of it.
type Written = (View<'static>, Trait, &'static str);

#[rattlefmt::skip]
const WRITTEN: [Written; 16] = [
    (View::Text("5\" nails"), Trait::Debug, "\"5\"\" nails\""),
    (View::Text(""), Trait::Debug, "\"\""),
    (View::Text("a,\r\nb"), Trait::Debug, "\"a,\r\nb\""),
    (View::Plain("2.50"), Trait::Debug, "\"2.50\""),
    (View::Character('"'), Trait::Debug, "\"\"\"\""),
    (View::Signed(-7, Bits::B8), Trait::Debug, "-7"),
    (View::Unsigned(7), Trait::Debug, "7"),
    (View::Truth(true), Trait::Debug, "true"),
    (View::Decimal { units: 250, scale: 2 }, Trait::Debug, "2.50"),
    (View::Float(2.0), Trait::Debug, "2.0"),
    (View::Float(1e300), Trait::Debug, "1e300"),
    (View::Float(f64::NAN), Trait::Debug, "NaN"),
    (View::Float32(f32::NEG_INFINITY), Trait::Debug, "-inf"),
    (View::Text("5\" nails"), Trait::Display, "5\"\" nails"),
    (View::Unsigned(255), Trait::LowerHex, "ff"),
    (View::Character('"'), Trait::Display, "\"\""),
];

/// Whether this is written of a view.
fn is_written(alloc: Global, row: &Written) -> bool {
    let (view, wanted, text) = row;
    let spec = Spec::default();
    let mut out = TextBuffer::new(alloc);
    let answer = RecordEscaper::put(&mut out, view.view(*wanted, &spec), *wanted, &spec);
    answer.is_ok() && out.as_str() == *text
}

#[test]
fn values_are_fields(rt: HostRuntime) {
    for row in &WRITTEN {
        assert!(rt; is_written(rt.alloc(), row), "{}", row.2);
    }
}
