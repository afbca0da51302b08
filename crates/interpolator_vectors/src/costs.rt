//! What the formats of rows cost: with the limits of a row's own context, the text is no longer
//! than the format's cost says.

use crate::cells::Cell;
use crate::report::{Report, whole};
use interpolator::{ContextMap, Interpolate, Limits, Template};

/// Formats that cost more characters than this are not written here.
const MOST: usize = 1_000_000;

/// Checks that the text of a format, if it has one, is no longer than the cost. Only a failure
/// counts as a run of its own.
pub fn run_cost(
    report: &mut Report<'_>,
    context: &ContextMap<'_, Cell>,
    template: &Template,
    limits: &Limits,
) {
    let cost = template.cost(limits).characters;
    if cost > MOST {
        return;
    }
    let Ok(text) = context.format_template(report.alloc, template) else {
        return;
    };
    if text.chars().count() > cost {
        report.check(whole("Template::cost"), false, &cost, &text);
    }
}
