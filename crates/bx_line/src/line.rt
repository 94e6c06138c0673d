//! The line network.

ghost use Rattle.std.specs.Prelude.{◌≡◌, ◌≤◌, ◌<◌, ◌+◌, ◌-◌, ◌↔◌, IfOk, IfSome, IsSome, length};
ghost use Rattle.bx_line.specs.ByPlace.{AreChains, IsFirstRow, row_place};
ghost use Rattle.bx_line.specs.Cliques.{AreCliques, IsShortened};
ghost use Rattle.bx_line.specs.Moments.{HasJustMoments};
ghost use Rattle.bx_line.specs.Network.{IsNetwork, IsArc, AreArcsOf, arc_at, network_of, places_of};

use crate::arc::Arc;
use crate::arcs::{arcs_of, counted_arcs};
use crate::by_place::ByPlace;
use crate::incidence::Incidence;
use crate::moments::{count_moments, moments_of};
use bx_base::Bookings;
use std::alloc::{AllocError, Global};
use std::marker::Model;

/// What the arc of a booking that each plan has to hold pays more. All bookings together pay less, 16,000,000,000,000 at most, so a
/// flow of least cost leaves out none of these that it can carry.
pub const MUST_RAISE: u64 = 17_000_000_000_000;

/// The most that an arc pays: the raise of a must row, and the greatest pay of a booking.
pub const MAX_ARC_PAY: u64 = 17_001_000_000_000;

/// The most places of a line: two for each booking.
pub const MAX_PLACES: usize = 32_000;

/// The line network of a day (M. C. Carlisle and E. L. Lloyd, On the k-coloring of intervals, 1995): a place for
/// each moment at which a booking starts or ends, an idle arc of cost 0 from each place to the next, and for each
/// booking an arc that takes one unit. Places are the nodes of the network: they are counted from 0, and rows are named 1, 2, ..
#[derive(Drop)]
pub struct Line {
    moments: Vec<u32>,
    arcs: Vec<Arc>,
    leaving: ByPlace,
    arriving: ByPlace,
}

impl Model for Line {
    ghost use Rattle.bx_line.specs.ByPlace.{IsChained};
    ghost use Rattle.bx_line.specs.Network.{Network, network_of};

    ghost Value = { Network };

    ghost view = { λ l. network_of l.moments.items l.arcs.items };

    ghost invariant = { λ l. IsChained (network_of l.moments.items l.arcs.items) l.leaving l.arriving };
}

impl Line {
    /// The line of these bookings, by one sort: its time is n log n in the bookings, its memory linear. `AllocError` where memory
    /// runs out.
    pub fn of(alloc: Global, bookings: &Bookings) -> Result<Line, AllocError>
        ensures moments { IfOk result (λ line. HasJustMoments bookings.now line.moments) }
        ensures arcs { IfOk result (λ line. AreArcsOf line.moments bookings.now line.arcs) }
        ensures limits { IfOk result IsNetwork }
    {
        let moments = moments_of(alloc, bookings)?;
        let arcs = arcs_of(alloc, &moments, bookings)?;
        Line::joined(alloc, moments, arcs)
    }

    /// The line of these places and rows, with the chains of its rows.
    fn joined(alloc: Global, moments: Vec<u32>, arcs: Vec<Arc>) -> Result<Line, AllocError>
        requires { IsNetwork (network_of moments.items arcs.items) }
        ensures { IfOk result (λ line. line ≡ network_of moments.items arcs.items) }
    {
        let leaving = ByPlace::of(alloc, moments.len(), &arcs, Incidence::Leaving)?;
        let arriving = ByPlace::of(alloc, moments.len(), &arcs, Incidence::Arriving)?;
        Ok(Line {
            moments,
            arcs,
            leaving,
            arriving,
        })
    }

    /// The moments of the places: the starts and ends of the bookings, in rising order.
    pub fn moments(&self) -> &[u32]
        ensures value { result.now ≡ self.now.moments }
        ensures limits { IsNetwork self.now }
    {
        &self.moments
    }

    /// How many places there are: 0 to 32,000.
    pub fn places(&self) -> u16
        ensures count { result ≡ places_of self.now }
        ensures limits { IsNetwork self.now }
    {
        self.moments.len() as u16
    }

    /// How many rows there are: 0 to 16,000.
    pub fn rows(&self) -> u16
        ensures count { result ≡ length self.now.arcs }
        ensures limits { IsNetwork self.now }
    {
        self.arcs.len() as u16
    }

    /// The arc of a row, where rows are named 1, 2, ..
    pub fn arc_of(&self, row: u16) -> Option<Arc>
        ensures exactly { IsSome result ↔ ((1 ≤ row) × (row ≤ length self.now.arcs)) }
        ensures value { IfSome result (λ a. a ≡ arc_at self.now (row - 1)) }
        ensures limits { IfSome result (IsArc (places_of self.now)) }
    {
        if row == 0 || row > self.rows() {
            return None;
        }
        Some(self.arc(row - 1))
    }

    /// The arc at a place of their list, counted from 0. There has to be one.
    pub fn arc(&self, index: u16) -> Arc
        requires { index < length self.now.arcs }
        ensures value { result ≡ arc_at self.now index }
        ensures limits { IsArc (places_of self.now) result }
    {
        self.arcs[index as usize]
    }

    /// The first row whose arc leaves a place that there is, or arrives there. Rows are counted from 0 here.
    pub fn first_row(&self, place: u16, side: Incidence) -> Option<u16>
        requires { place < places_of self.now }
        ensures { IsFirstRow side self.now.arcs place 0 result }
    {
        self.chains(side).first[place as usize]
    }

    /// The next row whose arc leaves the same place as that of this one, or arrives at the same place. There has to be this row;
    /// rows are counted from 0 here.
    pub fn next_row(&self, row: u16, side: Incidence) -> Option<u16>
        requires { row < length self.now.arcs }
        ensures { IsFirstRow side self.now.arcs (row_place side self.now.arcs row) (row + 1) result }
    {
        self.chains(side).next[row as usize]
    }

    /// How many maximal sets of rows that run together have ended by each place: one more at a place where a row ends, if a row
    /// started after the last such place. So the counts rise by 0 or 1 from place to place, and from the start of each row to
    /// its end. These sets are the maximal cliques of the intervals (Carlisle and Lloyd, 1995). `AllocError` where memory runs
    /// out.
    pub fn cliques(&self, alloc: Global) -> Result<Vec<u16>, AllocError>
        ensures counts { IfOk result (λ v. AreCliques self.now v.items) }
    {
        let mut counts = Vec::new(alloc);
        let mut ended = 0;
        let mut has_started = false;
        for place in 0..self.places() {
            let starts = self.first_row(place, Incidence::Leaving).is_some();
            let ends = self.first_row(place, Incidence::Arriving).is_some();
            if has_started && ends {
                ended += 1;
            }
            has_started = starts || (has_started && !ends);
            counts.push(ended)?;
        }
        Ok(counts)
    }

    /// The line that has a place for each of these counts, and two at least where it has any, with the same rows in the
    /// same order, each from the count of its start to that of its end. Its moments are the counts. They have to be those that
    /// `cliques` answers for this line. `AllocError` where memory runs out.
    pub fn shortened(&self, alloc: Global, counts: &[u16]) -> Result<Line, AllocError>
        requires counts { AreCliques self.now counts.now }
        ensures shorter { IfOk result (IsShortened self.now counts.now) }
        ensures limits { IfOk result IsNetwork }
    {
        // Read for the prover alone, which learns a limit from it.
        let _places = self.places();
        let moments = count_moments(alloc, counts)?;
        let arcs = counted_arcs(alloc, &self.arcs, counts)?;
        Line::joined(alloc, moments, arcs)
    }

    /// The chains on a side.
    fn chains(&self, side: Incidence) -> &ByPlace
        ensures { AreChains side self.now.arcs (places_of self.now) result.now.first.items result.now.next.items }
    {
        match side {
            Incidence::Leaving => &self.leaving,
            Incidence::Arriving => &self.arriving,
        }
    }
}
