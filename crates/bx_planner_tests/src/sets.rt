//! Six drawn rows, and their sets by the numbers from 0 to 63.

use crate::rows::Row;

static POWERS: [u32; 6] = [1, 2, 4, 8, 16, 32];

/// The next number of a simple generator.
fn next(seed: u32) -> u32 {
    seed.wrapping_mul(1_103_515_245).wrapping_add(12_345) % 2_147_483_648
}

/// Six rows within twelve seconds, of so many different pays.
pub(crate) fn six_rows(mut seed: u32, pays: u32) -> [Row; 6] {
    let mut rows = [(0, 1, 1, false); 6];
    for row in rows.iter_mut() {
        let a = next(seed);
        let b = next(a);
        let c = next(b);
        seed = c;
        let start = (a / 65536) % 8;
        let length = 1 + (b / 65536) % 4;
        let pay = 1 + u64::from((c / 65536) % pays.max(1));
        *row = (start, start + length, pay, (c / 1024) % 7 == 0);
    }
    rows
}

/// The number of the set of the row at this index alone.
pub(crate) fn power_of(index: usize) -> u32 {
    POWERS.get(index).copied().unwrap_or(64)
}

/// Whether the set with this number has the row at this index.
pub(crate) fn is_in(set: u32, index: usize) -> bool {
    set & power_of(index) != 0
}

/// How many rows of the set run at the moment.
fn running_at(rows: &[Row], set: u32, moment: u32) -> usize {
    let mut running = 0usize;
    for (index, (start, end, _, _)) in rows.iter().enumerate() {
        if is_in(set, index) && *start <= moment && moment < *end {
            running = running.saturating_add(1);
        }
    }
    running
}

/// The set of the rows that have to be held.
pub(crate) fn musts_of(rows: &[Row]) -> u32 {
    let mut set = 0;
    for (index, row) in rows.iter().enumerate() {
        if row.3 {
            set |= power_of(index);
        }
    }
    set
}

/// Whether the set has each row that has to be held, and fits so many channels.
pub(crate) fn is_lawful(rows: &[Row], set: u32, count: usize) -> bool {
    musts_of(rows) & !set == 0 && (0..12).all(|moment| running_at(rows, set, moment) <= count)
}

/// What the rows of the set pay, but for the one at this index, if there is one.
pub(crate) fn pay_beside(rows: &[Row], set: u32, except: usize) -> u64 {
    let mut pay = 0u64;
    for (index, row) in rows.iter().enumerate() {
        if index != except && is_in(set, index) {
            pay = pay.saturating_add(row.2);
        }
    }
    pay
}

/// The most that the rows but for this one pay of a lawful set that has it, or that has it not.
pub(crate) fn most_beside(rows: &[Row], count: usize, index: usize, held: bool) -> Option<u64> {
    let mut most = None;
    for set in 0..64 {
        if is_in(set, index) == held && is_lawful(rows, set, count) {
            most = most.max(Some(pay_beside(rows, set, index)));
        }
    }
    most
}

/// What the best of all sets pays, where some set is lawful.
pub(crate) fn best_of_all(rows: &[Row], count: usize) -> Option<u64> {
    let mut best = None;
    for set in 0..64 {
        if is_lawful(rows, set, count) {
            best = best.max(Some(pay_beside(rows, set, 6)));
        }
    }
    best
}

/// Whether some best lawful set has the row at this index, and whether some has it not.
pub(crate) fn best_sets(rows: &[Row], count: usize, index: usize) -> (bool, bool) {
    let mut best = 0;
    let mut found = (false, false);
    for set in 0..64 {
        if is_lawful(rows, set, count) {
            let pay = pay_beside(rows, set, 6);
            if pay > best || found == (false, false) {
                best = pay;
                found = (false, false);
            }
            if pay == best && is_in(set, index) {
                found = (true, found.1);
            } else if pay == best {
                found = (found.0, true);
            }
        }
    }
    found
}

/// The first moment of the row at which as many rows as there are channels have to be held.
pub(crate) fn first_full(rows: &[Row], count: usize, index: usize) -> Option<u32> {
    let row = rows.get(index)?;
    let musts = musts_of(rows);
    (row.0..row.1).find(|moment| running_at(rows, musts, *moment) >= count)
}

/// The first moment at which more rows than there are channels have to be held.
pub(crate) fn first_above(rows: &[Row], count: usize) -> Option<u32> {
    let musts = musts_of(rows);
    (0..12).find(|moment| running_at(rows, musts, *moment) > count)
}
