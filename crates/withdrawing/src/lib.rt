// Withdrawing a change, on tables in form.
#![tactic(auto)]

ghost use Rattle.std.specs.Prelude.{◌≡◌};
ghost use Rattle.model.specs.Answers.{as_done};
ghost use Rattle.model.specs.Package.{withdrawing};
ghost use Rattle.tables.specs.Parts.{PartFormed, ItemAnswered};
ghost use Rattle.withdrawing.specs.Withdrawing.{with_lent, unsettled_number};

use model::Refusal;
use search::position;
use tables::held_count;
use timestamps::is_timestamp;

// The status of a change that is withdrawn: Valid becomes Invalid.
fn unsettled(status: u16) -> u16
    ensures { result ≡ unsettled_number status }
{
    if status == 1 {
        return 2;
    }
    status
}

// The change of a timestamp withdrawn, on tables in form: its flag set, and Valid becomes Invalid.
pub fn withdraw_item(
    held: &[u16],
    timestamps: &[u64],
    order: &[u16],
    status: &mut [u16],
    withdrawn: &mut [u16],
    cutoff: &[u64],
    timestamp: u64,
) -> Result<(), Refusal>
    requires { PartFormed (λ T. with_lent T held.now timestamps.now order.now status.old withdrawn.old cutoff.now) }
    ensures { ItemAnswered
        (λ T. with_lent T held.now timestamps.now order.now status.old withdrawn.old cutoff.now)
        (λ T. with_lent T held.now timestamps.now order.now status.new withdrawn.new cutoff.now)
        (withdrawing timestamp) (as_done result) }
{
    if !is_timestamp(timestamp) {
        return Err(Refusal::NoTimestamp);
    }
    if timestamp < cutoff[0] {
        return Err(Refusal::BelowCutoff);
    }
    let count = held_count(held);
    let k = position(timestamp, count, order, timestamps).ok_or(Refusal::NotHeld)?;
    let place = order[k] as usize;
    if withdrawn[place] != 0 {
        return Err(Refusal::WithdrawnAlready);
    }
    withdrawn[place] = 1;
    status[place] = unsettled(status[place]);
    Ok(())
}
