// The refusal of a cutoff on tables in form.
#![tactic(auto)]

ghost use Rattle.std.specs.Prelude.{◌≡◌};
ghost use Rattle.model.specs.Answers.{number_in};
ghost use Rattle.cutoff_tests.specs.CutoffTests.{refusal_in, Testable};

use model::Refusal;
use search::{rank, waiting};
use tables::held_count;
use timestamps::is_timestamp;

// The refusal of a cutoff: that of the tables, if they have one, else 4, 14 or 15, where one applies.
#[tactic(auto, unfolding(crate::specs::CutoffTests::refusal_in))]
pub fn refusal_of(
    fault: Result<(), Refusal>,
    timestamp: u64,
    held: &[u16],
    timestamps: &[u64],
    order: &[u16],
    status: &[u16],
    cutoff: &[u64],
) -> Result<(), Refusal>
    requires { number_in fault ≡ 0 → Testable held.now timestamps.now order.now status.now cutoff.now }
    ensures { number_in result
        ≡ refusal_in (number_in fault) timestamp held.now timestamps.now order.now
        status.now cutoff.now }
{
    fault?;
    if !is_timestamp(timestamp) {
        return Err(Refusal::NoTimestamp);
    }
    if timestamp < cutoff[0] {
        return Err(Refusal::BelowCutoff);
    }
    let count = held_count(held);
    let first = rank(timestamp, count, order, timestamps);
    if let Some(k) = waiting(count, order, status) {
        if k < first {
            return Err(Refusal::UnsettledBelow);
        }
    }
    Ok(())
}
