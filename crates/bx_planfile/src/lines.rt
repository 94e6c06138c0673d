//! The lines of the version, of counts, of a price, of the total, and the last one.

ghost use Rattle.std.specs.Prelude.{◌≡◌, ◌≤◌, ◌<◌, MatchOption, None, Some, false, IfOk};
ghost use Rattle.std.specs.Option.{option_map};
ghost use Rattle.bx_planfile.specs.Forms.{header_form, named_form, price_form, is_charge};
ghost use Rattle.bx_planfile.specs.Capped.{capped_charge};
ghost use Rattle.bx_text.specs.Digits.{capped};
ghost use Rattle.bx_planfile.specs.Values.{charge_of_values, IsChargeWithin};
ghost use Rattle.bx_planfile.specs.Reading.{read_header, read_count, read_total, read_end, read_price};
ghost use Rattle.bx_planfile.specs.Inside.{AnswersRead};
ghost use Rattle.bx_base.specs.declared.plan.TheConstants.{MAX_TOTAL};

use crate::decimals::decimal;
use crate::fault::PlanTextFault;
use crate::fields::Fields;
use crate::version::Version;
use bx_base::{MAX_TOTAL, Price};

#[tactic(auto, unfolding(crate::specs::Forms::header_form))]
fn version_of(mut fields: Fields<'_>) -> Option<Version>
    ensures { result ≡ header_form fields.entry }
{
    if fields.take() != b"bx-plan".as_slice() {
        return None;
    }
    let version = fields.take();
    if !fields.is_done() {
        None
    } else if version == b"1".as_slice() {
        Some(Version::One)
    } else if version == b"2".as_slice() {
        Some(Version::Two)
    } else if version == b"3".as_slice() {
        Some(Version::Three)
    } else {
        None
    }
}

/// The version in the fields of line `n`.
#[tactic(auto, unfolding(crate::specs::Reading::read_header))]
pub(crate) fn header_of(fields: Fields<'_>, n: u32) -> Result<Version, PlanTextFault>
    ensures { AnswersRead (λ x. x) result (read_header n fields.entry) }
{
    version_of(fields).ok_or(PlanTextFault::BadLine(n))
}

/// The decimal after a word, which are all the fields.
#[tactic(auto, unfolding(crate::specs::Forms::named_form))]
fn number_after(word: &[u8], mut fields: Fields<'_>) -> Option<u64>
    ensures { result ≡ option_map capped (named_form word.now fields.entry) }
{
    if fields.take() != word {
        return None;
    }
    let number = decimal(fields.take())?;
    if fields.is_done() { Some(number) } else { None }
}

/// The count in the fields of line `n`, which is at most so many.
#[tactic(auto, unfolding(crate::specs::Reading::read_count))]
pub(crate) fn count_of(
    word: &[u8],
    most: u16,
    fields: Fields<'_>,
    n: u32,
) -> Result<u16, PlanTextFault>
    ensures value { AnswersRead (λ x. x) result (read_count word.now most n fields.entry) }
    ensures few { IfOk result (λ x. x ≤ most) }
{
    let count = number_after(word, fields).ok_or(PlanTextFault::BadLine(n))?;
    if count > u64::from(most) {
        return Err(PlanTextFault::BadCount);
    }
    Ok(count as u16)
}

/// The total in the fields of line `n`.
#[tactic(auto, unfolding(crate::specs::Reading::read_total))]
pub(crate) fn total_of(fields: Fields<'_>, n: u32) -> Result<u64, PlanTextFault>
    ensures value { AnswersRead (λ x. x) result (read_total n fields.entry) }
    ensures limit { IfOk result (λ x. x ≤ MAX_TOTAL) }
{
    let total = number_after(b"total", fields).ok_or(PlanTextFault::BadLine(n))?;
    if total > MAX_TOTAL {
        return Err(PlanTextFault::OutOfLimits(n));
    }
    Ok(total)
}

/// That line `n`, with these fields, is the last one, and that nothing stands after it.
#[tactic(auto, unfolding(crate::specs::Reading::read_end, crate::specs::Forms::is_end))]
pub(crate) fn ends<'a>(
    mut fields: Fields<'_>,
    rest: &'a [u8],
    n: u32,
) -> Result<&'a [u8], PlanTextFault>
    ensures { AnswersRead (λ x. x.now) result (read_end n fields.entry rest.now) }
{
    if fields.take() != b"end".as_slice() || !fields.is_done() {
        return Err(PlanTextFault::BadLine(n));
    }
    if !rest.is_empty() {
        return Err(PlanTextFault::Trailing);
    }
    Ok(rest)
}

/// What a line of the right form says of a price, within its limits or not.
#[derive(Clone, Copy)]
struct PriceValues {
    moment: u64,
    amount: u64,
}

#[tactic(auto, unfolding(crate::specs::Forms::price_form))]
fn price_values(mut fields: Fields<'_>) -> Option<PriceValues>
    ensures { option_map charge_of_values result ≡ option_map capped_charge (price_form fields.entry) }
{
    let moment = decimal(fields.take())?;
    let amount = decimal(fields.take())?;
    if fields.is_done() {
        Some(PriceValues { moment, amount })
    } else {
        None
    }
}

impl PriceValues {
    #[tactic(auto, unfolding(crate::specs::Forms::is_charge))]
    fn within_limits(&self) -> Option<Price>
        ensures { MatchOption result (is_charge (charge_of_values self.now) ≡ false) (IsChargeWithin (charge_of_values self.now)) }
    {
        Price::new(u32::try_from(self.moment).ok()?, self.amount)
    }
}

/// The price in the fields of line `n`.
#[tactic(auto, unfolding(crate::specs::Reading::read_price))]
pub(crate) fn price_of(fields: Fields<'_>, n: u32) -> Result<Price, PlanTextFault>
    ensures { AnswersRead (λ x. x) result (read_price n fields.entry) }
{
    let values = price_values(fields).ok_or(PlanTextFault::BadLine(n))?;
    values.within_limits().ok_or(PlanTextFault::OutOfLimits(n))
}
