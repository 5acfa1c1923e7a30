// The refusal of the call that raises the cutoff: first that of the tables, then that of the cutoff.
#![tactic(auto)]

ghost use Rattle.model.specs.Answers.{number_in};
ghost use Rattle.tables.specs.Lent.{shown};
ghost use Rattle.cutoff_refusal.specs.CutoffRefusal.{Judged};

use cutoff_tests::refusal_of;
use model::Refusal;
use tables::Tables;
use tables::form::fault;

// 1, 2, 4, 14 or 15, where one applies.
pub fn cutoff_refusal(n: usize, tables: &Tables, timestamp: u64) -> Result<(), Refusal>
    ensures { Judged n (shown tables.now) timestamp (number_in result) }
{
    let wrong = fault(n, tables);
    refusal_of(
        wrong,
        timestamp,
        tables.held,
        tables.timestamps,
        tables.order,
        tables.status,
        tables.cutoff,
    )
}
