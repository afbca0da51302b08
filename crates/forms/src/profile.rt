//! A context of more than sixteen fields.

use interpolator::{Decimal, Error, Interpolate, Or, Template, TextBuffer, values};
use std::alloc::Global;

/// A user, as a database keeps it.
#[derive(Drop)]
struct User {
    id: u64,
    first: String,
    last: String,
    email: String,
    phone: String,
    street: String,
    number: u16,
    zip: String,
    city: String,
    country: String,
    born: u16,
    joined: u16,
    plan: String,
    price: Decimal,
    credit: i64,
    visits: u32,
    active: bool,
    initial: char,
    note: String,
    score: i8,
}

impl User {
    /// Writes what the template means for this user: each half of the fields is a row of `values!`.
    fn write(&self, alloc: Global, out: &mut TextBuffer, template: &Template) -> Result<(), Error> {
        let person = values!(
            id:integer = self.id,
            first = &self.first,
            last = &self.last,
            email = &self.email,
            phone = &self.phone,
            street = &self.street,
            number = self.number,
            zip = &self.zip,
            city = &self.city,
            country = &self.country,
        );
        let account = values!(
            born = self.born,
            joined = self.joined,
            plan = &self.plan,
            price = self.price,
            credit:integer = self.credit,
            visits:integer = self.visits,
            active = self.active,
            initial = self.initial,
            note = &self.note,
            score = self.score,
        );
        Or(&person, &account).write_template_to(alloc, out, template)
    }
}

/// A user whose texts are their own names.
fn example(alloc: Global) -> Result<User, Error> {
    Ok(User {
        id: 17,
        first: String::from_str(alloc, "Zoë")?,
        last: String::from_str(alloc, "Gray")?,
        email: String::from_str(alloc, "zoe@example.org")?,
        phone: String::from_str(alloc, "555-0100")?,
        street: String::from_str(alloc, "High Street")?,
        number: 4,
        zip: String::from_str(alloc, "AB1 2CD")?,
        city: String::from_str(alloc, "Oslo")?,
        country: String::from_str(alloc, "Norway")?,
        born: 1990,
        joined: 2020,
        plan: String::from_str(alloc, "basic")?,
        price: Decimal {
            units: 1250,
            scale: 2,
        },
        credit: -5,
        visits: 300,
        active: true,
        initial: 'Z',
        note: String::from_str(alloc, "none")?,
        score: -3,
    })
}

/// A profile.
pub fn shown(alloc: Global) -> Result<String, Error> {
    let template = Template::parse(
        alloc,
        "#{id:06x} {first} {last} ({initial}, {born}), {street} {number}, {zip} {city}, {country}
{email} {phone}
{plan} since {joined}: {price:.2}, credit {credit:+}, {visits:e} visits, {active}, {note}, {score}
",
    )?;
    let user = example(alloc)?;
    let mut out = TextBuffer::new(alloc);
    user.write(alloc, &mut out, &template)?;
    Ok(out.into_string())
}
