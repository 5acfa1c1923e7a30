// What a turn answers of its change.
#![tactic(auto)]

ghost use Rattle.std.specs.Prelude.{◌≡◌};
ghost use Rattle.run_record.specs.Record.{ending_of};
ghost use Rattle.model.specs.Answers.{as_turn};
ghost use Rattle.model.specs.Calls.{run_answer};
ghost use Rattle.turn_answers.specs.Answers.{answer_by};

use acts::Act;
use model::Turn;
use run_record::Run;

// The answer to a run of the change of a timestamp: it ran, or it faulted at the place where the run broke off.
fn run_answer(run: Run, timestamp: u64) -> Turn
    ensures { as_turn result ≡ run_answer timestamp (ending_of run) }
{
    if run.is_whole() {
        return Turn::Ran(timestamp);
    }
    Turn::Faulted(timestamp, run.place)
}

// The answer, by what was done with the change of a timestamp.
pub fn answer_of(act: Act, run: Run, timestamp: u64) -> Turn
    ensures { as_turn result ≡ answer_by act run timestamp }
{
    match act {
        Act::Clear => Turn::Cleared(timestamp),
        Act::Stand => Turn::Stood(timestamp),
        Act::Run => run_answer(run, timestamp),
    }
}
