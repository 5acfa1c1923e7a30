// The interpreter for programs in other languages, as a static library.
#![tactic(auto)]

ghost use Rattle.std.specs.Prelude.{◌≡◌, ◌+◌, ◌*◌, ◌≤◌, length, take};
ghost use Rattle.machine.specs.Instruction.{code};
ghost use Rattle.run_record.specs.Record.{ending_of, fault_of, lists};
ghost use Rattle.interpreter_exports.specs.Numbers.{refusal_of, fault_number, outcome_number, run_refusal, over, reported, report};

use bytecode::form::{length_fits, well_formed};
use interpreter::run::run_program;
use run_record::{Fault, Lists, Run, Status};

// 0 if a program of a version is accepted, else its refusal, 6, 13 or 7.
#[unsafe(no_mangle)]
pub extern "C" fn tolbezun_program_refusal(version: u16, program: &[u8]) -> u8
    ensures { result ≡ refusal_of (code version program.now) }
{
    if !length_fits(program) {
        return 6;
    }
    if 1 < version {
        return 13;
    }
    if !well_formed(program) {
        return 7;
    }
    0
}

// The number of a fault: 1 a register named no setting, 2 read a setting that it had written, 3 wrote one twice.
fn fault_number(fault: Fault) -> u32
    ensures { (result ≡ fault_number (fault_of fault)) × (result ≤ 3) }
{
    match fault {
        Fault::NoSetting => 1,
        Fault::ReadsWritten => 2,
        Fault::WritesTwice => 3,
    }
}

// A run's counts, ending and place in one number.
fn number_of(run: Run) -> u32
    requires { (run.reads ≤ 32) × (run.writes ≤ 32) × (run.place ≤ 32) }
    ensures { result ≡ outcome_number (run.reads + run.writes * 64) (ending_of run) }
{
    let lengths = run.reads as u32 + run.writes as u32 * 64;
    match run.status {
        Status::Going | Status::Stopped => lengths,
        Status::Faulted(fault) => {
            lengths + fault_number(fault) * 4096 + run.place as u32 * 65536
        }
    }
}

// 0 where a program can be run into lists of these lengths: 1 where one of them is not 32, else the program's refusal.
fn run_refusal(
    version: u16,
    program: &[u8],
    sources: usize,
    seen: usize,
    targets: usize,
    written: usize,
) -> u8
    ensures { result ≡ run_refusal (code version program.now) sources seen targets written }
{
    if sources != 32 || seen != 32 || targets != 32 || written != 32 {
        return 1;
    }
    tolbezun_program_refusal(version, program)
}

// The number of a refused run, above that of every run.
fn refused_number(refusal: u8) -> u32
    ensures { result ≡ 16777216 + refusal }
{
    16777216 + refusal as u32
}

// The first count elements of a list, put over those of a lent one.
fn copy_first<T: Copy>(count: usize, list: &[T], lent: &mut [T])
    requires { (count ≤ length list.now) × (count ≤ length lent.old) }
    ensures { lent.new ≡ over (take count list.now) lent.old }
{
    lent[..count].copy_from_slice(&list[..count]);
}

// Runs a program by the rules of a version on 1,024 values; where there are fewer, the others are 0. Where a lent list has another length than 32 or the program is
// refused, the answer is 16,777,216 + the refusal and the lists stay as they are. Else it is reads + 64 × writes + 4,096 × ending +
// 65,536 × place, where place is that of the faulting instruction, or 0; the first entries of the lists are the run's, the others stay.
#[unsafe(no_mangle)]
pub extern "C" fn tolbezun_program_run(
    version: u16,
    program: &[u8],
    values: &[i32],
    sources: &mut [u16],
    seen: &mut [i32],
    targets: &mut [u16],
    written: &mut [i32],
) -> u32
    ensures { reported result (lists sources.new seen.new targets.new written.new)
        ≡ report (code version program.now) values.now
        (lists sources.old seen.old targets.old written.old) }
{
    let refusal = run_refusal(
        version,
        program,
        sources.len(),
        seen.len(),
        targets.len(),
        written.len(),
    );
    if refusal != 0 {
        return refused_number(refusal);
    }
    // They begin as the lent lists, so that none is set to 0 first, which would need `memset` from outside.
    let mut lists = Lists::new();
    lists.sources.copy_from_slice(sources);
    lists.seen.copy_from_slice(seen);
    lists.targets.copy_from_slice(targets);
    lists.written.copy_from_slice(written);
    let run = run_program(version, program, values, &mut lists);
    copy_first(run.reads, &lists.sources, sources);
    copy_first(run.reads, &lists.seen, seen);
    copy_first(run.writes, &lists.targets, targets);
    copy_first(run.writes, &lists.written, written);
    number_of(run)
}
