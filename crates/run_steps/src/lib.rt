// An effect carried out on a run record and the caller's arrays. The rules of the versions are in `load` and `store`.
#![tactic(auto)]

ghost use Rattle.std.specs.Prelude.{◌≡◌, ◌<◌, ◌≤◌, ◌==◌, position, take};
ghost use Rattle.machine.specs.declared.Effect.TheVariants.{Load, Store};
ghost use Rattle.machine.specs.Settings.{Environment, everywhere};
ghost use Rattle.machine.specs.Run.{perform};
ghost use Rattle.run_record.specs.Record.{Performable, state_of, Ready, Stepped};

use instruction_effects::setting;
use machine::Effect;
use run_record::{Fault, Lists, Run};

// The place of the first of count settings that is s.
fn first_place(settings: &[u16; 32], count: usize, s: u16) -> Option<usize>
    requires { count ≤ 32 }
    ensures { result ≡ position (λ x. x == s) (take count settings.now) }
{
    settings[..count].iter().position(|x| *x == s)
}

// Register a set to the setting of number s, or a fault. A setting that the run has not written has the value v; by version 1, one that it has written has
// the value that it wrote.
fn load(run: Run, a: usize, s: i32, v: i32, lists: &mut Lists) -> Run
    requires { Ready run × (a < 8) }
    ensures { Stepped run (perform (everywhere v) (Load a s) (state_of run lists.old)) result lists.new }
{
    let Some(source) = setting(s) else {
        return run.fault(Fault::NoSetting);
    };
    if let Some(own) = first_place(&lists.targets, run.writes, source) {
        if run.version == 0 {
            return run.fault(Fault::ReadsWritten);
        }
        return run.assign(a, lists.written[own]).advance(0);
    }
    if first_place(&lists.sources, run.reads, source).is_some() {
        return run.assign(a, v).advance(0);
    }
    run.enter_read(source, v, lists).assign(a, v).advance(0)
}

// The setting of number s set to v, or a fault. By version 1, a second write replaces the value of the first.
fn store(run: Run, s: i32, v: i32, lists: &mut Lists) -> Run
    requires { Ready run }
    ensures { (env : Environment) → Stepped run (perform env (Store s v) (state_of run lists.old)) result lists.new }
{
    let Some(target) = setting(s) else {
        return run.fault(Fault::NoSetting);
    };
    if let Some(own) = first_place(&lists.targets, run.writes, target) {
        if run.version == 0 {
            return run.fault(Fault::WritesTwice);
        }
        lists.written[own] = v;
        return run.advance(0);
    }
    run.enter_write(target, v, lists).advance(0)
}

// An effect carried out, where v is the value of the setting that it wants.
pub fn perform(run: Run, e: Effect, v: i32, lists: &mut Lists) -> Run
    requires { Ready run × Performable run.place e }
    ensures { Stepped run (perform (everywhere v) e (state_of run lists.old)) result lists.new }
{
    match e {
        Effect::Halt => run.stop(),
        Effect::Assign(a, x) => run.assign(a, x).advance(0),
        Effect::Load(a, s) => load(run, a, s, v, lists),
        Effect::Store(s, x) => store(run, s, x, lists),
        Effect::Skip(n) => run.advance(n as usize),
    }
}
