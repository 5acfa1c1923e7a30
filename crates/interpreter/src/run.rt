// The run of a program on a list of 1,024 values.
ghost use Rattle.std.specs.Prelude.{◌≡◌, true, ◌≤◌, length, IfSome};
ghost use Rattle.machine.specs.Settings.{value_in};
ghost use Rattle.machine.specs.Instruction.{code};
ghost use Rattle.machine.specs.Form.{all_well_formed};
ghost use Rattle.machine.specs.Run.{run};
ghost use Rattle.run_record.specs.Record.{Ran};

use bytecode::program::instruction_at;
use instruction_effects::{effect, wanted};
use run_record::{Lists, Run, Status};
use run_steps::perform;

// The value in a list of values of the setting that an effect wants; 0 past its end, or where it wants none.
fn value_in(values: &[i32], s: Option<u16>) -> i32
    ensures { IfSome s (λ k. result ≡ value_in values.now k) }
{
    match s {
        Some(k) => values.get(usize::from(k)).copied().unwrap_or(0),
        None => 0,
    }
}

// The run of a program by the rules of a version, on some values. The lists have as many entries as the record counts.
pub fn run_program(version: u16, program: &[u8], values: &[i32], lists: &mut Lists) -> Run
    requires { (length program.now ≤ 256) × (all_well_formed program.now ≡ true) }
    ensures { Ran result lists.new (run (value_in values.now) (code version program.now)) }
{
    let count = program.len() / 8;
    let mut run = Run::new(version);
    while run.place < count {
        let e = effect(run, instruction_at(program, run.place));
        let v = value_in(values, wanted(e));
        run = perform(run, e, v, lists);
        if run.status != Status::Going {
            return run;
        }
    }
    run
}
