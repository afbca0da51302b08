//! Lists of lists of lists: teams, each with its people, and each of these with the hours of each
//! day.

use crate::page::Page;
use interpolator::{ContextMap, Error, Formattable, Interpolate, View, items_of, rows_of};
use std::alloc::Global;

/// Appends a person: the name, and the hours of each day.
fn push_person<'a>(cells: &mut Vec<View<'a>>, person: &'a str) -> Result<(), Error> {
    for word in person.split(' ') {
        cells.push(View::Text(word))?;
    }
    Ok(())
}

/// Appends the people of a team, and where each of them ends.
fn push_team<'a>(
    cells: &mut Vec<View<'a>>,
    people: &mut Vec<usize>,
    team: &'a str,
) -> Result<(), Error> {
    for person in team.split(',') {
        push_person(cells, person)?;
        people.push(cells.len())?;
    }
    Ok(())
}

/// Teams, written by a format. The people of each team are rows of cells, and the teams are rows of
/// these rows.
fn reported<'a>(
    alloc: Global,
    people: &'a [Formattable<'a, View<'a>>],
    ends: &[usize],
    format: &str,
) -> Result<String, Error> {
    let teams = rows_of(alloc, people, ends)?;
    let mut context = ContextMap::new(alloc);
    context.put("teams", Formattable::iter(&teams))?;
    context.format(alloc, format)
}

/// A line for each team.
fn hours(alloc: Global, text: &str) -> Result<String, Error> {
    let mut cells = Vec::new(alloc);
    let mut people = Vec::new(alloc);
    let mut teams = Vec::new(alloc);
    for team in text.lines() {
        push_team(&mut cells, &mut people, team)?;
        teams.push(people.len())?;
    }
    let items = items_of(alloc, &cells)?;
    let people = rows_of(alloc, &items, &people)?;
    let format = "{teams:i##({:i#({:i0({})}: {:i1..({}h)( )})#(; )})##(\n)}";
    reported(alloc, &people, &teams, format)
}

pub fn show(page: &mut Page) {
    let alloc = page.alloc;
    page.put_made("hours", hours(alloc, "Ann 8 7,Béla 6\nEve 5 5 5"));
}
