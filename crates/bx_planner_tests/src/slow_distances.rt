//! Distances against a slow and simple program, over many small days.

use crate::distances::{Asked, Looked, are, distances_of, grows};
use crate::rows::{Drawn, random_rows};
use bx_cases::SHARE;
use bx_dist::{Carried, Dist, Part};
use bx_line::Line;
use std::alloc::{AllocError, Global};
use std::test::Fail;

static SMALL_DAYS: Drawn = Drawn {
    starts: 7,
    lengths: 4,
    pays: 9,
};

/// Takes the step where it shortens the way to its end.
fn relax(best: &mut [i64], from: u16, to: u16, cost: i64) {
    let there = best
        .get(from as usize)
        .copied()
        .unwrap_or(0)
        .saturating_add(cost);
    if let Some(length) = best.get_mut(to as usize) {
        *length = there.min(*length);
    }
}

/// Takes each idle step that shortens the way to its end.
fn relax_gaps(best: &mut [i64], line: &Line, carried: &Carried) {
    for place in 1..line.places() {
        relax(best, place - 1, place, 0);
        if carried.idle(place - 1) > 0 {
            relax(best, place, place - 1, 0);
        }
    }
}

/// Takes each booking's step that shortens the way to its end.
fn relax_rows(best: &mut [i64], line: &Line, carried: &Carried, part: Part) {
    for row in 0..line.rows() {
        let arc = line.arc(row);
        if part == Part::Whole || !arc.must {
            if carried.accepted(row + 1) {
                relax(best, arc.to, arc.from, arc.pay as i64);
            } else {
                relax(best, arc.from, arc.to, -(arc.pay as i64));
            }
        }
    }
}

/// Distances as slowly as can be: the least lengths of walks of ever more steps.
fn slow(alloc: Global, asked: Asked<'_>) -> Result<Vec<i64>, AllocError> {
    let Asked {
        line,
        carried,
        part,
        ..
    } = asked;
    let mut best = vec![in alloc; 1_000_000_000_000; line.places() as usize]?;
    relax(&mut best, 0, 0, -1_000_000_000_000);
    for _ in 0..line.places() {
        relax_gaps(&mut best, line, carried);
        relax_rows(&mut best, line, carried, part);
    }
    Ok(best)
}

/// The distances by rounds, where they are those of the slow program.
struct AsSlow;

impl Looked for AsSlow {
    fn dist(&self, alloc: Global, asked: Asked<'_>) -> Option<Dist> {
        let dist = distances_of(alloc, asked)?;
        if are(&dist, &slow(alloc, asked).ok()?) {
            Some(dist)
        } else {
            None
        }
    }
}

#[test]
fn as_a_slow_program_over_many_small_days(rt: HostRuntime) {
    let mut seed: u32 = 1;
    for day in 0..200 / SHARE {
        let (rows, next) = random_rows::<6>(seed, &SMALL_DAYS);
        assert!(rt; grows(&AsSlow, rt.alloc(), &rows, 3).is_some(), "day {day}");
        seed = next;
    }
}
