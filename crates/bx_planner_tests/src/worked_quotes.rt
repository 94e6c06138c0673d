//! Quotes of worked days.

use crate::proved_plans::plan_of;
use crate::rows::{Row, booking_of};
use bx_planner::{NoQuote, Quote, explain, quote};
use std::alloc::Global;

/// What is asked for.
enum Ask {
    /// A booking after the plan's rows.
    New(Row),
    /// A row of the plan.
    Refused(u16),
}

/// The rows of a day on so many channels, what is asked, and the whole answer.
struct Worked {
    name: &'static str,
    rows: &'static [Row],
    count: usize,
    ask: Ask,
    threshold: u64,
    cost: u64,
    instead: &'static [u16],
    besides: &'static [u16],
}

static WORKED: [Worked; 9] = [
    Worked {
        name: "the place is free",
        rows: &[(0, 10, 5, false)],
        count: 1,
        ask: Ask::New((10, 20, 1, false)),
        threshold: 0,
        cost: 0,
        instead: &[],
        besides: &[],
    },
    // Its own mark and pay do not count.
    Worked {
        name: "it has to beat the one that is there",
        rows: &[(0, 60, 5, false)],
        count: 1,
        ask: Ask::New((30, 90, 1_000_000_000, true)),
        threshold: 5,
        cost: 0,
        instead: &[1],
        besides: &[],
    },
    // That is more than its seconds cost.
    Worked {
        name: "a refused row has to beat both that it would displace",
        rows: &[(0, 10, 4, false), (5, 15, 6, false), (10, 20, 4, false)],
        count: 1,
        ask: Ask::Refused(2),
        threshold: 8,
        cost: 6,
        instead: &[1, 3],
        besides: &[],
    },
    Worked {
        name: "what it displaces had kept two others out",
        rows: &[(0, 30, 10, false), (0, 10, 4, false), (20, 30, 5, false)],
        count: 1,
        ask: Ask::New((10, 20, 7, false)),
        threshold: 1,
        cost: 0,
        instead: &[1],
        besides: &[2, 3],
    },
    Worked {
        name: "a refused row comes back beside a refused row",
        rows: &[(0, 30, 10, false), (0, 10, 4, false), (20, 30, 5, false)],
        count: 1,
        ask: Ask::Refused(2),
        threshold: 5,
        cost: 4,
        instead: &[1],
        besides: &[3],
    },
    Worked {
        name: "a must row stays, though it pays less",
        rows: &[(0, 10, 1, true), (0, 10, 7, false), (0, 10, 9, false)],
        count: 2,
        ask: Ask::Refused(2),
        threshold: 9,
        cost: 7,
        instead: &[3],
        besides: &[],
    },
    Worked {
        name: "the threshold is above every pay",
        rows: &[
            (0, 10, 1_000_000_000, false),
            (10, 20, 1_000_000_000, false),
            (20, 30, 1_000_000_000, false),
        ],
        count: 1,
        ask: Ask::New((5, 25, 1_000_000_000, false)),
        threshold: 3_000_000_000,
        cost: 0,
        instead: &[1, 2, 3],
        besides: &[],
    },
    Worked {
        name: "of two channels one gets free where it is cheaper",
        rows: &[(0, 20, 8, false), (0, 10, 3, false), (10, 20, 4, false)],
        count: 2,
        ask: Ask::New((5, 15, 5, false)),
        threshold: 7,
        cost: 0,
        instead: &[2, 3],
        besides: &[],
    },
    Worked {
        name: "no other booking",
        rows: &[],
        count: 2,
        ask: Ask::New((0, 200_000, 5, false)),
        threshold: 0,
        cost: 0,
        instead: &[],
        besides: &[],
    },
];

fn answer(alloc: Global, case: &Worked) -> Option<Result<Quote, NoQuote>> {
    let plan = plan_of(alloc, case.rows, case.count)?;
    Some(match &case.ask {
        Ask::New(row) => quote(alloc, &plan, &booking_of(row)?),
        Ask::Refused(row) => explain(alloc, &plan, *row),
    })
}

fn is_as(quote: &Quote, case: &Worked) -> bool {
    quote.threshold == case.threshold
        && quote.cost == case.cost
        && quote.instead.as_slice() == case.instead
        && quote.besides.as_slice() == case.besides
}

#[test]
fn answers_are_whole(rt: HostRuntime) {
    for case in &WORKED {
        let found = match answer(rt.alloc(), case) {
            Some(Ok(quote)) => is_as(&quote, case),
            _ => false,
        };
        assert!(rt; found, "{}", case.name);
    }
}
