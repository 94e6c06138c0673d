//! What the pages of the office and of its counter say.

use bx_office::{Route, Side, at_once};

/// What the script has, and how often.
type Part = (&'static str, &'static str, usize);

static PARTS: [Part; 15] = [
    (
        "what is not accepted is not booked",
        "if (fields[1] !== \"accepted\") {\n    const later = fields[3] === \"NoChannel\" ? await freeLater(call.start, call.end) : \"\";\n    return `Not booked: ${reasons[fields[3]] || fields[3]}.${later}`;\n  }\n",
        1,
    ),
    (
        "what is booked is told in full",
        "return `Booked: row ${fields[2]} of the plan, number ${call.number}, ${byClock(call.start)} to ${byClock(call.end)}, pay ${call.pay}.${warning}`;",
        1,
    ),
    ("nothing else is told so", "Booked: ", 1),
    (
        "the day is booked in full where no time is free",
        "if (free.length === 0) {\n    return \" From then on the day is booked in full for so long a call.\";\n  }\n",
        1,
    ),
    ("it is so nowhere else", "booked in full", 1),
    (
        "a price is told of an answer that has one",
        "return above ? `It is taken for more than ${above[1]}.` : inWords(text);",
        1,
    ),
    (
        "the price is the number behind these words",
        "const above = /^taken above (\\d+)$/m.exec(text);",
        1,
    ),
    (
        "a refusal is told in words",
        "return reply.isFine ? sold(reply.text, call) : inWords(reply.text);",
        1,
    ),
    (
        "what is given up is told so where it is",
        "return reply.isFine ? `Cancelled: row ${place} of the plan.` : inWords(reply.text);",
        1,
    ),
    (
        "only what waits can be given up",
        "if (state === \"waiting\") {\n    const cancelling = () => confirm(`Cancel the booking of row ${place} of the plan?`);\n",
        1,
    ),
    (
        "what gets another end is the same booking",
        "const body = bookingText(fields[4], end, fields[2], pay, fields[1]);\n",
        1,
    ),
    (
        "the end is ten minutes later",
        "const later = utc(Date.parse(end) + TEN_MINUTES);\n",
        1,
    ),
    (
        "what gets another end is told so where it is",
        "return reply.isFine ? `Extended: row ${fields[0]} of the plan ends at ${byClock(end)}.` : inWords(reply.text);",
        1,
    ),
    (
        "the figures are as old as their answer",
        "if (metrics.isFine) {\n    shownAt = Date.now();\n    await tell(metrics.text);\n  }\n",
        1,
    ),
    ("no other figures are", "shownAt = ", 2),
];

/// How often a text stands in another one.
fn count_in(text: &[u8], part: &[u8]) -> usize {
    let mut count = 0usize;
    for place in 0..text.len() {
        if text[place..].starts_with(part) && count < text.len() {
            count += 1;
        }
    }
    count
}

#[test]
fn the_page_says_what_was_answered(rt: HostRuntime) {
    let reply = at_once(Side::Operators, Route::Script, None);
    assert!(rt; reply.is_some(), "there is a script");
    if let Some(reply) = reply {
        for (name, part, count) in &PARTS {
            assert!(rt; count_in(reply.body, part.as_bytes()) == *count, "{name}");
        }
    }
}

/// What a page has: the name, the side, the text, and how often.
type Shown = (&'static str, Side, &'static str, usize);

static SHOWN: [Shown; 13] = [
    ("a form", Side::Operators, "<form id=\"call\">", 1),
    (
        "a form for customers",
        Side::Customers,
        "<form id=\"call\">",
        1,
    ),
    ("its end", Side::Operators, "</main>\n</body>\n</html>\n", 1),
    (
        "the end of that for customers",
        Side::Customers,
        "</main>\n</body>\n</html>\n",
        1,
    ),
    ("the day", Side::Operators, "id=\"day-title\"", 1),
    ("the plan", Side::Operators, "href=\"/plan\"", 1),
    ("what is promised", Side::Operators, "id=\"promised\"", 1),
    ("no day for customers", Side::Customers, "day-title", 0),
    ("no picture for customers", Side::Customers, "chart", 0),
    (
        "no other's bookings for customers",
        Side::Customers,
        "promised",
        0,
    ),
    ("no links for customers", Side::Customers, "<a ", 0),
    (
        "a script for customers",
        Side::Customers,
        "src=\"/office.js\"",
        1,
    ),
    ("a title for customers", Side::Customers, "Book a call", 2),
];

/// How often the page of its side has it.
fn count_on(shown: &Shown) -> Option<usize> {
    let reply = at_once(shown.1, Route::Home, None)?;
    Some(count_in(reply.body, shown.2.as_bytes()))
}

#[test]
fn customers_have_a_page_of_their_own(rt: HostRuntime) {
    for shown in &SHOWN {
        assert!(rt; count_on(shown) == Some(shown.3), "{}", shown.0);
    }
}
