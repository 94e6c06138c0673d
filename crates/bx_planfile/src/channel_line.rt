//! The line of the channels in service.

ghost use Rattle.std.specs.Prelude.{◌≡◌, ◌<◌, None, Some, map, true, false};
ghost use Rattle.std.specs.List.{list_all};
ghost use Rattle.bx_planfile.specs.Forms.{is_decimal, channel_set, channels_form};
ghost use Rattle.bx_text.specs.Digits.{decimal_value};
ghost use Rattle.bx_planfile.specs.Reading.{read_channels};
ghost use Rattle.bx_planfile.specs.Inside.{AnswersRead};

use crate::decimals::decimal;
use crate::fault::PlanTextFault;
use crate::fields::Fields;
use bx_base::ChannelSet;
use bx_channels::Channel;

/// Whether all fields that are left are decimals.
fn all_decimals(mut fields: Fields<'_>) -> bool
    ensures { result ≡ list_all is_decimal fields.entry }
{
    while !fields.is_done() {
        if decimal(fields.take()).is_none() {
            return false;
        }
    }
    true
}

/// The set of the channels whose numbers are left, where they rise.
fn rising_channels(mut fields: Fields<'_>) -> Option<ChannelSet>
    requires { list_all is_decimal fields ≡ true }
    ensures { result ≡ channel_set (map decimal_value fields.entry) }
{
    let mut set = ChannelSet::empty();
    let mut last = 0;
    while !fields.is_done() {
        let number = decimal(fields.take())?;
        if number <= last || number > 31 {
            return None;
        }
        set = set.with(Channel::new(number as u8)?);
        last = number;
    }
    Some(set)
}

/// The channels in the fields of line `n`.
#[tactic(auto, unfolding(crate::specs::Reading::read_channels, crate::specs::Forms::channels_form))]
pub(crate) fn channels_of(mut fields: Fields<'_>, n: u32) -> Result<ChannelSet, PlanTextFault>
    ensures { AnswersRead (λ x. x) result (read_channels n fields.entry) }
{
    if fields.take() != b"channels".as_slice() || !all_decimals(fields.again()) {
        return Err(PlanTextFault::BadLine(n));
    }
    rising_channels(fields).ok_or(PlanTextFault::OutOfLimits(n))
}
