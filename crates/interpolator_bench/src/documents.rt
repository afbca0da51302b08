//! Formats as programs have them: an order in JSON, a letter in HTML, a row of a table.

use crate::failure::Failure;
use crate::uses::{How, repeat_in_map};
use interpolator::{Bits, Formattable, Pairs, View};
use std::alloc::{AllocError, Global};

/// An order in JSON: 2,048 bytes with their line ends, 40 doubled braces and 12 names.
#[rattlefmt::skip]
const JSON: [&str; 37] = [
    "{{",
    "  \"kind\": \"order\", \"version\": 3, \"source\": \"web shop of the bakery\",",
    "  \"order\": {{ \"number\": {order}, \"placed\": \"{placed}\", \"state\": \"paid\" }},",
    "  \"customer\": {{",
    "    \"name\": \"{name}\", \"language\": \"en\", \"newsletter\": false,",
    "    \"contact\": {{ \"mail\": \"{mail}\", \"phone\": null, \"preferred\": \"mail\" }},",
    "    \"address\": {{ \"street\": \"{street}\", \"city\": \"{city}\", \"floor\": null }},",
    "    \"loyalty\": {{ \"member\": true, \"since\": \"2019-03-01\", \"points\": {points} }}",
    "  }},",
    "  \"lines\": [",
    "    {{ \"goods\": \"{goods}\", \"unit\": \"loaf\", \"count\": {count}, \"gift\": false }},",
    "    {{ \"goods\": \"paper bag, brown, large\", \"unit\": \"bag\", \"count\": 1 }},",
    "    {{ \"goods\": \"delivery within the town\", \"unit\": \"trip\", \"count\": 1 }}",
    "  ],",
    "  \"payment\": {{",
    "    \"method\": {{ \"kind\": \"card\", \"brand\": \"visa\", \"stored\": false }},",
    "    \"amount\": {{ \"value\": \"{amount}\", \"currency\": \"{currency}\" }},",
    "    \"tax\": {{ \"rate\": \"0.12\", \"included\": true, \"country\": \"NO\" }},",
    "    \"refund_until\": \"{until}\", \"refund_reason\": null, \"refund_possible\": true",
    "  }},",
    "  \"delivery\": {{",
    "    \"window\": {{ \"from\": \"07:30\", \"to\": \"09:00\", \"weekdays\": \"mon-fri\" }},",
    "    \"courier\": {{ \"name\": \"the bakery's own cart\", \"tracking\": null }},",
    "    \"notes\": {{ \"door\": \"ring twice\", \"absent\": \"leave it with a neighbour\" }}",
    "  }},",
    "  \"audit\": {{",
    "    \"created\": {{ \"by\": \"checkout\", \"host\": \"shop-7\", \"build\": \"4f1c09e\" }},",
    "    \"checked\": {{ \"by\": \"fraud rules\", \"score\": 0.02, \"verdict\": \"clear\" }}",
    "  }},",
    "  \"links\": [\"https://bakery.example/orders\", \"https://bakery.example/terms\",",
    "    \"https://bakery.example/returns\", \"https://bakery.example/privacy\"],",
    "  \"keywords\": [\"bread\", \"rye\", \"sourdough\", \"seeded\", \"sliced\", \"fresh\", \"morning\"],",
    "  \"allergens\": [\"gluten\", \"sesame\", \"traces of nuts\", \"traces of milk\", \"traces of egg\"],",
    "  \"packing\": \"Bread is packed warm, so leave the bag open until the loaf has cooled.\",",
    "  \"storage\": \"Keep it in the bag at room temperature for three days, or frozen for three months.\",",
    "  \"comment\": \"Amounts are in whole cents where no point stands, and dates are those of Oslo as well.\"",
    "}}",
];

/// A letter in HTML: 15 names, and 4,096 bytes of literal text, line ends among them.
#[rattlefmt::skip]
const LETTER: [&str; 61] = [
    "<!DOCTYPE html>",
    "<html lang=\"en\">",
    "<head>",
    "<meta charset=\"utf-8\">",
    "<meta name=\"viewport\" content=\"width=device-width, initial-scale=1\">",
    "<title>Your order {order} at {company}</title>",
    "</head>",
    "<body style=\"margin: 0; padding: 0; background-color: #f4f1ea; color: #2b2b2b\">",
    "<table role=\"presentation\" width=\"100%\" cellpadding=\"0\" cellspacing=\"0\" border=\"0\">",
    "<tr><td align=\"center\" style=\"padding: 24px 12px\">",
    "<table role=\"presentation\" width=\"600\" cellpadding=\"0\" cellspacing=\"0\" border=\"0\">",
    "<tr><td style=\"padding: 0 0 16px 0; font-family: Georgia, serif; font-size: 22px\">",
    "<a href=\"https://bakery.example/\" style=\"color: #7a3b10; text-decoration: none\">{shop}</a>",
    "</td></tr>",
    "<tr><td style=\"padding: 16px; background-color: #ffffff; font-family: Georgia, serif\">",
    "<p style=\"margin: 0 0 12px 0\">{street}<br>{postcode} {city}<br>{country}</p>",
    "<p style=\"margin: 0 0 12px 0\">{date}</p>",
    "<p style=\"margin: 0 0 12px 0\">Dear {title} {name},</p>",
    "<p style=\"margin: 0 0 12px 0; line-height: 1.5\">thank you for your order. We have begun to",
    "knead, and the first loaves go into the oven at five in the morning, as they have done on",
    "every working day since the bakery was opened. Your bread is baked on the day on which it is",
    "delivered, never the day before, and it leaves our house while it is still warm. Please keep",
    "the bag open until the loaf has cooled, so that the crust stays as crisp as it ought to be.</p>",
    "<table role=\"presentation\" width=\"100%\" cellpadding=\"6\" cellspacing=\"0\" border=\"0\">",
    "<tr style=\"background-color: #efe7da\"><th align=\"left\">Goods</th><th align=\"right\">Count</th>",
    "<th align=\"right\">Amount</th></tr>",
    "<tr><td align=\"left\">{goods}</td><td align=\"right\">{count}</td><td align=\"right\">{amount}</td></tr>",
    "</table>",
    "<p style=\"margin: 12px 0; line-height: 1.5\">The amount has been paid by card, and this letter is",
    "your receipt: there is nothing more to do. If anything is not as you wished, write to us within",
    "fourteen days, and we shall bake it again or give you your money back, whichever you prefer.",
    "Bread that is no longer wanted is best given to a neighbour, and what is dry makes good crumbs",
    "for the pan. You find a dozen recipes for old bread, from soups to puddings, on our pages.</p>",
    "<p style=\"margin: 12px 0; line-height: 1.5\">From next week on we bake three kinds more. The first is a",
    "dark rye with coarse grain, which is set the evening before and stays in its tin overnight. It",
    "keeps for ten days, and it is at its best on the third. The second is a wheat loaf with seeds",
    "of pumpkin and of flax, soaked in hot water, so that it is moist and easy to slice. The third",
    "is a flat bread with oil and salt, which goes well with soup, and which we bake at noon, so",
    "that it is fresh in the evening. All three are made of flour from the mill down the river, and",
    "of nothing that you would not have at home: flour, water, salt, and a dough that is fed daily.</p>",
    "<p style=\"margin: 12px 0; line-height: 1.5\">Our shop has new hours, too. On weekdays it opens at half",
    "past six and closes at six; on Saturdays it closes at two, and on Sundays it stays shut, since",
    "all bakers like to sleep. Orders by post or by telephone are taken until noon of the day before.</p>",
    "<p style=\"margin: 12px 0; line-height: 1.5\">Until the end of the month each tenth loaf is on the",
    "house. You need not collect stamps or carry a card: we count for you, and we tell you in a",
    "letter such as this one when your free loaf is due. You may give it to someone else, too, and",
    "if you would rather have cake, we shall be glad to talk about it over the counter.</p>",
    "<p style=\"margin: 12px 0 0 0\">{closing},<br>{sender}</p>",
    "</td></tr>",
    "<tr><td style=\"padding: 16px 0; font-family: Arial, sans-serif; font-size: 12px; color: #777777\">",
    "<p style=\"margin: 0 0 8px 0\">You get this letter since you ordered bread on our pages. We keep",
    "your address for as long as the law wants it, and we give it to nobody but the driver.</p>",
    "<p style=\"margin: 0\"><a href=\"https://bakery.example/letters\" style=\"color: #7a3b10\">Fewer",
    "letters</a> | <a href=\"https://bakery.example/privacy\" style=\"color: #7a3b10\">What we keep</a> |",
    "<a href=\"https://bakery.example/imprint\" style=\"color: #7a3b10\">Who we are</a></p>",
    "</td></tr>",
    "</table>",
    "</td></tr>",
    "</table>",
    "</body>",
    "</html>",
];

/// A row of a table: eight padded cells.
#[rattlefmt::skip]
const ROW: [&str; 1] =
    ["{id:>6}|{goods:<16}|{city:^12}|{count:5}|{price:>10}|{change:>+8}|{code:#010x}|{name:20}"];

/// An order in JSON.
pub fn json(alloc: Global, how: How, repeats: u32) -> Result<String, Failure> {
    let values = [
        ("order", View::Unsigned(48213)),
        ("placed", View::Text("2024-05-17")),
        ("name", View::Text("Ann Svensson")),
        ("mail", View::Text("ann@example.org")),
        ("street", View::Text("Long Street 12")),
        ("city", View::Text("Oslo")),
        ("points", View::Unsigned(1250)),
        ("goods", View::Text("rye with caraway")),
        ("count", View::Unsigned(3)),
        ("amount", View::Text("147.50")),
        ("currency", View::Text("NOK")),
        ("until", View::Text("2024-05-31")),
    ];
    repeat_lines(alloc, how, &JSON, &values, repeats)
}

/// A letter in HTML.
pub fn letter(alloc: Global, how: How, repeats: u32) -> Result<String, Failure> {
    let values = [
        ("order", View::Unsigned(48213)),
        ("company", View::Text("The Corner Bakery")),
        ("shop", View::Text("bakery.example")),
        ("street", View::Text("Long Street 12")),
        ("postcode", View::Unsigned(457)),
        ("city", View::Text("Oslo")),
        ("country", View::Text("Norway")),
        ("date", View::Text("17 May 2024")),
        ("title", View::Text("Dr")),
        ("name", View::Text("Svensson")),
        ("goods", View::Text("rye with caraway")),
        ("count", View::Unsigned(3)),
        ("amount", View::Text("147.50")),
        ("closing", View::Text("Yours")),
        ("sender", View::Text("Bob Baker")),
    ];
    repeat_lines(alloc, how, &LETTER, &values, repeats)
}

/// A row of a table.
pub fn table_row(alloc: Global, how: How, repeats: u32) -> Result<String, Failure> {
    let values = [
        ("id", View::Unsigned(48213)),
        ("goods", View::Text("rye")),
        ("city", View::Text("Oslo")),
        ("count", View::Unsigned(3)),
        ("price", View::Text("147.50")),
        ("change", View::Signed(-12, Bits::B64)),
        ("code", View::Unsigned(48879)),
        ("name", View::Text("Ann Svensson")),
    ];
    repeat_lines(alloc, how, &ROW, &values, repeats)
}

// Uses the format of these lines with these values, `repeats` times. Returns the last text.
fn repeat_lines(
    alloc: Global,
    how: How,
    lines: &[&str],
    values: &[(&str, View<'_>)],
    repeats: u32,
) -> Result<String, Failure> {
    let format = lines_of(alloc, lines)?;
    let mut pairs = Vec::new(alloc);
    for (name, value) in values {
        pairs.push((*name, Formattable::integer(value)))?;
    }
    repeat_in_map(alloc, how, format.as_str(), &Pairs(&pairs), repeats)
}

// The lines, each with its end.
fn lines_of(alloc: Global, lines: &[&str]) -> Result<String, AllocError> {
    let mut text = String::new(alloc);
    for line in lines {
        text.push_str(line)?;
        text.push('\n')?;
    }
    Ok(text)
}
