// The run of a turn's change, and the new lists that it makes.
#![tactic(auto)]

ghost use Rattle.std.specs.Prelude.{get_or};
ghost use Rattle.machine.specs.Instruction.{code};
ghost use Rattle.machine.specs.Run.{run};
ghost use Rattle.run_record.specs.Record.{Ran};
ghost use Rattle.model.specs.Tables.{program_in};
ghost use Rattle.values.specs.Values.{lists_of, values_as_of, Lookable, Looked};
ghost use Rattle.execution.specs.Executed.{Runnable, Made};

use acts::Act;
use run_record::{Lists, Run};
use runs::run_at;
use values::{History, KnownValues};

// The run of the change at a position by the rules of its version, on the values as of it.
fn run_change(
    version: u16,
    k: usize,
    lengths: &[u16],
    programs: &[u8],
    history: &History,
    values: &mut KnownValues,
    lists: &mut Lists,
) -> Run
    requires { let h = lists_of history.now in
        Runnable k h.order lengths.now programs.now × Lookable k h values.old }
    ensures { let h = lists_of history.now in
        let env = values_as_of h k in
        Ran result lists.new (run env (code version (program_in lengths.now programs.now (get_or h.order k 0))))
        × Looked env values.old values.new }
{
    let place = history.order[k] as usize;
    let begin = 256 * place;
    let end = begin + 8 * (lengths[place] as usize);
    run_at(version, &programs[begin..end], k, history, values, lists)
}

// The new lists of a change that does not stand: none where it is cleared, else those of its run.
pub fn new_lists(
    act: Act,
    version: u16,
    k: usize,
    lengths: &[u16],
    programs: &[u8],
    history: &History,
    values: &mut KnownValues,
    lists: &mut Lists,
) -> Run
    requires { let h = lists_of history.now in
        Runnable k h.order lengths.now programs.now × Lookable k h values.old }
    ensures { let h = lists_of history.now in
        let env = values_as_of h k in
        Made act result lists.new (run env (code version (program_in lengths.now programs.now (get_or h.order k 0))))
        × Looked env values.old values.new }
{
    match act {
        Act::Run => run_change(version, k, lengths, programs, history, values, lists),
        Act::Clear | Act::Stand => Run::new(version),
    }
}
