//! What the far end does with the calls that it is offered, and which it begins itself.

ghost use Rattle.std.specs.Prelude.{◌≡◌, ◌++◌, ◌∷◌, [], length, ◌<◌, ◌≤◌, OnOk, IfOk, IfErr};
ghost use Rattle.csv.specs.Reading.{strip_bom};
ghost use Rattle.bx_base.specs.declared.bookings.TheConstants.{MAX_BOOKINGS};
ghost use Rattle.bx_far.specs.Policies.{fits_number, policy_for, policy_of};
ghost use Rattle.bx_far.specs.ScriptTexts.{IsScript, IsScriptFault};

use crate::fault::ScriptFault;
use crate::row::ScriptRow;
use crate::text::read_script;
use bx_calls::Policy;
use bx_channels::Number;
use bx_text::records_of;
use std::alloc::{AllocError, Global};
use std::marker::Model;

/// The rows of a script, in their order: at most 16,000.
#[derive(Drop)]
pub struct Script {
    pub(crate) rows: Vec<ScriptRow>,
}

impl Model for Script {
    ghost use Rattle.std.specs.Prelude.{List, length, ◌≤◌};
    ghost use Rattle.bx_base.specs.declared.bookings.TheConstants.{MAX_BOOKINGS};
    ghost use Rattle.bx_far.specs.declared.row.ScriptRow.{ScriptRow};

    ghost Value = { List ScriptRow };

    ghost view = { λ s. s.rows.items };

    ghost invariant = { λ s. length s.rows.items ≤ MAX_BOOKINGS };
}

impl Script {
    /// Reads a script, RFC 4180 records as `csv` reads them: a header `number,policy,seconds`, which may go on
    /// with `channel`, and then at most 16,000 rows. The answer is all rows, or the first fault: `BadHeader`, or of the rows in
    /// their order `WrongColumns`, `BadEntry` or `TooMany`; or `Memory` where memory ran out.
    pub fn read(alloc: Global, octets: &[u8]) -> Result<Script, ScriptFault>
        ensures ok { IfOk result (IsScript (strip_bom octets.now)) }
        ensures err { IfErr result (IsScriptFault (strip_bom octets.now)) }
    {
        let mut records = records_of(alloc, octets);
        read_script(alloc, &mut records)
    }

    /// The rows, in their order.
    pub(crate) fn rows(&self) -> &[ScriptRow]
        ensures { result.now ≡ self.now }
    {
        &self.rows
    }

    pub(crate) fn empty(alloc: Global) -> Script
        ensures { result ≡ [] }
    {
        Script {
            rows: Vec::new(alloc),
        }
    }

    /// How many rows there are: 0 to 16,000.
    pub(crate) fn count(&self) -> u16
        ensures value { result ≡ length self.now }
        ensures limit { length self.now ≤ MAX_BOOKINGS }
    {
        self.rows.len() as u16
    }

    pub(crate) fn add(&mut self, row: ScriptRow) -> Result<(), AllocError>
        requires { length self.old < MAX_BOOKINGS }
        ensures { OnOk result (self.new ≡ self.old ++ row ∷ []) }
    {
        // The check of a push needs the types of the parts in view.
        match row {
            ScriptRow::Follows { number, policy } => {
                push_to(&mut self.rows, ScriptRow::Follows { number, policy })
            }
            ScriptRow::Calls {
                number,
                moment,
                channel,
            } => push_to(
                &mut self.rows,
                ScriptRow::Calls {
                    number,
                    moment,
                    channel,
                },
            ),
        }
    }

    /// What is done with a call of this number: the policy of the first row that is for it or for any number.
    /// It is answered at once where there is none. A call whose number could not be read matches `*` alone, and
    /// rows that call are not looked at.
    pub fn policy_of(&self, called: Option<Number>) -> Policy
        ensures { result ≡ policy_of self.now called }
    {
        for row in &self.rows {
            if let Some(policy) = policy_for(row, &called) {
                return policy;
            }
        }
        Policy::Answer(0)
    }
}

/// Adds a row to fewer than 16,000.
fn push_to<T: Drop>(items: &mut Vec<T>, item: T) -> Result<(), AllocError>
    requires { length items.old.items < MAX_BOOKINGS }
    ensures ok { OnOk result (items.new.items ≡ items.old.items ++ item ∷ []) }
    ensures limit { length items.new.items ≤ MAX_BOOKINGS }
{
    match items.push(item) {
        Ok(()) => Ok(()),
        Err(_) => Err(AllocError),
    }
}

/// What a row does with a call of this number, if it is for it.
fn policy_for(row: &ScriptRow, called: &Option<Number>) -> Option<Policy>
    ensures { result ≡ policy_for row.now called.now }
{
    match row {
        ScriptRow::Follows { number, policy } => {
            if is_for(*number, *called) {
                Some(*policy)
            } else {
                None
            }
        }
        ScriptRow::Calls { .. } => None,
    }
}

/// Whether a row of this number is for a call of that one.
fn is_for(number: Option<Number>, called: Option<Number>) -> bool
    ensures { result ≡ fits_number number called }
{
    match (number, called) {
        (None, _) => true,
        (Some(_), None) => false,
        (Some(number), Some(called)) => number.digits() == called.digits(),
    }
}
