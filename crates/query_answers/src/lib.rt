// The answers of the queries on tables in form, from the lists that each is lent, and the start values, which need none.
#![tactic(auto)]

ghost use Rattle.std.specs.Prelude.{◌≡◌, length};
ghost use Rattle.model.specs.Answers.{as_done, as_value, as_standing};
ghost use Rattle.model.specs.Calls.{plain_reply, start_values};
ghost use Rattle.writers.specs.Writers.{WriteLists};
ghost use Rattle.search.specs.Searches.{PlacesWithin};
ghost use Rattle.query_answers.specs.Queries.{current_answer, as_of_answer, standing_answer};

use fresh::fill_start;
use model::{Refusal, Standing};
use search::{position, rank};
use timestamps::is_timestamp;
use values::History;

// The value of a setting in the view, or refusal 5.
pub fn setting_value(view: &[i32], setting: usize) -> Result<i32, Refusal>
    requires { length view.now ≡ 1024 }
    ensures { as_value result ≡ current_answer view.now setting }
{
    if setting < 1024 {
        return Ok(view[setting]);
    }
    Err(Refusal::NoSetting)
}

// The value of a setting as of a timestamp among the first count changes of the order list, or refusal 4, 14 or 5.
pub fn value_at(
    cutoff: u64,
    timestamp: u64,
    setting: usize,
    count: usize,
    order: &[u16],
    timestamps: &[u64],
    writes: &[u16],
    targets: &[u16],
    written: &[i32],
    kept: &[i32],
) -> Result<i32, Refusal>
    requires { PlacesWithin count order.now (length timestamps.now) × (length writes.now ≡ length timestamps.now)
        × WriteLists writes.now targets.now written.now × (length kept.now ≡ 1024) }
    ensures { as_value result
        ≡ as_of_answer order.now timestamps.now writes.now targets.now written.now
        kept.now cutoff count timestamp setting }
{
    if timestamp == 0 {
        return Err(Refusal::NoTimestamp);
    }
    if timestamp < cutoff {
        return Err(Refusal::BelowCutoff);
    }
    if 1024 <= setting {
        return Err(Refusal::NoSetting);
    }
    let k = rank(timestamp, count, order, timestamps);
    let history = History {
        order,
        writes,
        targets,
        written,
        kept,
    };
    Ok(history.value_below(setting as u16, k))
}

// The status and flag of the change of a timestamp among the first count of the order list, or refusal 4, 14 or 10.
pub fn standing_at(
    cutoff: u64,
    timestamp: u64,
    count: usize,
    order: &[u16],
    timestamps: &[u64],
    status: &[u16],
    withdrawn: &[u16],
) -> Result<Standing, Refusal>
    requires { PlacesWithin count order.now (length timestamps.now) × (length status.now ≡ length timestamps.now)
        × (length withdrawn.now ≡ length timestamps.now) }
    ensures { as_standing result
        ≡ standing_answer order.now timestamps.now status.now withdrawn.now cutoff count timestamp }
{
    if !is_timestamp(timestamp) {
        return Err(Refusal::NoTimestamp);
    }
    if timestamp < cutoff {
        return Err(Refusal::BelowCutoff);
    }
    let k = position(timestamp, count, order, timestamps).ok_or(Refusal::NotHeld)?;
    let place = order[k] as usize;
    Ok(Standing {
        status: status[place],
        withdrawn: withdrawn[place],
    })
}

// The start values, for a lent slice of 1,024 settings.
pub fn start_values(settings: &mut [i32]) -> Result<(), Refusal>
    ensures { plain_reply (as_done result) settings.new ≡ start_values settings.old }
{
    if settings.len() != 1024 {
        return Err(Refusal::WrongLengths);
    }
    fill_start(settings);
    Ok(())
}
