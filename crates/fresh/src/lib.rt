// Start values, and the run of held changes on settings of their own, in timestamp order.
#![tactic(auto)]

ghost use Rattle.std.specs.Prelude.{◌≡◌, true, ◌≤◌, length};
ghost use Rattle.machine.specs.Settings.{value_in, carry};
ghost use Rattle.machine.specs.Instruction.{code};
ghost use Rattle.machine.specs.Form.{all_well_formed};
ghost use Rattle.machine.specs.Run.{run};
ghost use Rattle.model.specs.History.{start, all_settings};
ghost use Rattle.model.specs.Tables.{code_in};
ghost use Rattle.fresh.specs.HeldRuns.{held_run, HeldPrograms};

use interpreter::run::run_program;
use run_record::Lists;
use start_values::start_table;
use write_lists::carry;

// The start value of a setting, by the rule of the table: 1 in field 2, else 0.
pub fn start_value(s: usize) -> i32
    ensures { result ≡ start s }
{
    if s < 1024 && s % 16 == 2 { 1 } else { 0 }
}

// Every setting set to its start value, from the table.
pub fn fill_start(values: &mut [i32])
    requires { length values.old ≡ 1024 }
    ensures { values.new ≡ all_settings start }
{
    fill_from(&start_table(), values);
}

// Every setting set to the value that a list has of it. The literal length lets the compiler copy whole vectors, and leave out what was set before.
pub fn fill_from(from: &[i32], values: &mut [i32])
    requires { (length from.now ≡ 1024) × (length values.old ≡ 1024) }
    ensures { values.new ≡ from.now }
{
    for i in 0..1024 {
        values[i] = from[i];
    }
}

// A program run by the rules of a version on some values, and its writes carried into them.
pub fn apply(version: u16, program: &[u8], values: &mut [i32])
    requires { (length program.now ≤ 256) × (all_well_formed program.now ≡ true) × (length values.old ≡ 1024) }
    ensures { values.new ≡ carry (run (value_in values.old) (code version program.now)).writes values.old }
{
    let mut lists = Lists::new();
    let run = run_program(version, program, values, &mut lists);
    let targets: &[u16] = &lists.targets;
    let written: &[i32] = &lists.written;
    carry(&targets[..run.writes], &written[..run.writes], values);
}

// The first count changes of the order list run on some values, one after the other, withdrawn ones passed over.
pub fn run_held(
    count: usize,
    order: &[u16],
    withdrawn: &[u16],
    lengths: &[u16],
    programs: &[u8],
    versions: &[u16],
    values: &mut [i32],
)
    requires { HeldPrograms count order.now withdrawn.now lengths.now programs.now versions.now × (length values.old ≡ 1024) }
    ensures { values.new
        ≡ held_run order.now withdrawn.now
        (code_in lengths.now programs.now versions.now)
        values.old count }
{
    for place in &order[..count] {
        let place = *place as usize;
        let stands = withdrawn[place] == 0;
        if stands {
            let begin = 256 * place;
            let end = begin + 8 * (lengths[place] as usize);
            apply(versions[place], &programs[begin..end], values);
        }
    }
}
