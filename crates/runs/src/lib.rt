// A program run on the values as of a position of the order list.
#![tactic(auto)]

ghost use Rattle.std.specs.Prelude.{◌≡◌, true, ◌<◌, ◌≤◌, length, IfSome};
ghost use Rattle.machine.specs.Instruction.{code};
ghost use Rattle.machine.specs.Form.{all_well_formed};
ghost use Rattle.machine.specs.Run.{run};
ghost use Rattle.run_record.specs.Record.{Ran};
ghost use Rattle.values.specs.Values.{lists_of, values_as_of, Lookable, Looked};

use bytecode::program::instruction_at;
use instruction_effects::{effect, wanted};
use run_record::{Lists, Run, Status};
use run_steps::perform;
use values::{History, KnownValues};

// The value of the setting that an effect wants, as of a position; 0 where it wants none.
fn wanted_value(s: Option<u16>, k: usize, history: &History, values: &mut KnownValues) -> i32
    requires { IfSome s (λ x. x < 1024) × Lookable k (lists_of history.now) values.old }
    ensures { let env = values_as_of (lists_of history.now) k in
        IfSome s (λ x. result ≡ env x) × Looked env values.old values.new }
{
    match s {
        Some(x) => values.value_of(x, k, history),
        None => 0,
    }
}

// The run of a program by the rules of a version, on the values as of a position.
pub fn run_at(
    version: u16,
    program: &[u8],
    k: usize,
    history: &History,
    values: &mut KnownValues,
    lists: &mut Lists,
) -> Run
    requires { (length program.now ≤ 256)
        × (all_well_formed program.now ≡ true)
        × Lookable k (lists_of history.now) values.old }
    ensures { let env = values_as_of (lists_of history.now) k in
        Ran result lists.new (run env (code version program.now)) × Looked env values.old values.new }
{
    let count = program.len() / 8;
    let mut run = Run::new(version);
    while run.place < count {
        let e = effect(run, instruction_at(program, run.place));
        let v = wanted_value(wanted(e), k, history, values);
        run = perform(run, e, v, lists);
        if run.status != Status::Going {
            return run;
        }
    }
    run
}
