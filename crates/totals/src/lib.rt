// The totals of a drain for each console: turns are counted one by one.
#![tactic(auto)]

ghost use Rattle.std.specs.Prelude.{◌≡◌};
ghost use Rattle.model.specs.Answers.{as_turned};
ghost use Rattle.model.specs.Drain.{console};
ghost use Rattle.totals.specs.Counted.{Countable, kind_number, counted_at, counted_in};

use model::{Refusal, Turn};

// What a counted turn did, in the order of a console's totals.
#[derive(Clone, Copy)]
enum Kind {
    Ran,
    Stood,
    Cleared,
    Faulted,
}

// One more turn of a kind, by the console of its timestamp.
fn count(t: u64, kind: Kind, totals: &mut [u16])
    requires { Countable totals.old }
    ensures { totals.new ≡ counted_at (console t) (kind_number kind) totals.old }
{
    let place = (t % 256) as usize * 4 + kind as usize;
    totals[place] += 1;
}

// One more turn, by its answer. An idle one is not counted.
pub fn count_turn(answer: Result<Turn, Refusal>, totals: &mut [u16])
    requires { Countable totals.old }
    ensures { totals.new ≡ counted_in (as_turned answer) totals.old }
{
    match answer {
        Ok(Turn::Idle) => {}
        Ok(Turn::Ran(t)) => count(t, Kind::Ran, totals),
        Ok(Turn::Stood(t)) => count(t, Kind::Stood, totals),
        Ok(Turn::Cleared(t)) => count(t, Kind::Cleared, totals),
        Ok(Turn::Faulted(t, _)) => count(t, Kind::Faulted, totals),
        Err(_) => {}
    }
}
