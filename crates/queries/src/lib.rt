// The calls that only read: current value, value as of a timestamp, standing of a timestamp, plain run, start values.
#![tactic(auto)]

ghost use Rattle.std.specs.Prelude.{◌≡◌};
ghost use Rattle.model.specs.Answers.{as_done, as_value, as_standing};
ghost use Rattle.model.specs.Calls.{current_value, value_as_of, standing, plain_reply, plain_run};
ghost use Rattle.tables.specs.Lent.{shown};

use fresh::{fill_from, run_held};
use model::{Refusal, Standing};
pub use query_answers::start_values;
use query_answers::{setting_value, standing_at, value_at};
use tables::form::fault;
use tables::{Tables, held_count};

// The current value of a setting, from the view.
pub fn current_value(n: usize, tables: &Tables, setting: usize) -> Result<i32, Refusal>
    ensures { as_value result ≡ current_value n (shown tables.now) setting }
{
    fault(n, tables)?;
    setting_value(tables.view, setting)
}

// The value of a setting as of a timestamp: the highest write stamped below it, else the kept value.
pub fn value_as_of(
    n: usize,
    tables: &Tables,
    timestamp: u64,
    setting: usize,
) -> Result<i32, Refusal>
    ensures { as_value result ≡ value_as_of n (shown tables.now) timestamp setting }
{
    fault(n, tables)?;
    let count = held_count(tables.held);
    value_at(
        tables.cutoff[0],
        timestamp,
        setting,
        count,
        tables.order,
        tables.timestamps,
        tables.writes,
        tables.targets,
        tables.written,
        tables.kept,
    )
}

// The standing of a timestamp: status and flag.
pub fn standing(n: usize, tables: &Tables, timestamp: u64) -> Result<Standing, Refusal>
    ensures { as_standing result ≡ standing n (shown tables.now) timestamp }
{
    fault(n, tables)?;
    let count = held_count(tables.held);
    standing_at(
        tables.cutoff[0],
        timestamp,
        count,
        tables.order,
        tables.timestamps,
        tables.status,
        tables.withdrawn,
    )
}

// What all held changes leave, run in timestamp order on settings of their own, withdrawn ones passed over.
pub fn plain_run(n: usize, tables: &Tables, settings: &mut [i32]) -> Result<(), Refusal>
    ensures { plain_reply (as_done result) settings.new ≡ plain_run n (shown tables.now) settings.old }
{
    if settings.len() != 1024 {
        return Err(Refusal::WrongLengths);
    }
    fault(n, tables)?;
    let count = held_count(tables.held);
    let mut values = [0i32; 1024];
    fill_from(tables.kept, &mut values);
    run_held(
        count,
        tables.order,
        tables.withdrawn,
        tables.lengths,
        tables.programs,
        tables.versions,
        &mut values,
    );
    fill_from(&values, settings);
    Ok(())
}
