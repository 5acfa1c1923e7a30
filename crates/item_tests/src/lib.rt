// The tests of a program to take in that need no search: by itself, and against the program that its timestamp is held with.
#![tactic(auto)]

ghost use Rattle.std.specs.Prelude.{◌≡◌, ◌*◌, ◌<◌, ◌≤◌, length, get_or};
ghost use Rattle.machine.specs.Instruction.{code};
ghost use Rattle.model.specs.Tables.{code_in};
ghost use Rattle.model.specs.Answers.{number_in, as_answer};
ghost use Rattle.model.specs.Refusals.{first_of};
ghost use Rattle.item_tests.specs.ItemTests.{argument_tests, compared_answer};

use bytecode::form::{length_fits, well_formed};
use model::{Outcome, Refusal};
use timestamps::is_timestamp;

// The refusal of a timestamp, a version and a program by themselves, where the cutoff is given: 4, 14, 6, 13 or 7, where one applies.
pub fn refusal_of(cutoff: u64, timestamp: u64, version: u16, program: &[u8]) -> Result<(), Refusal>
    ensures { number_in result ≡ first_of (argument_tests cutoff timestamp (code version program.now)) }
{
    if !is_timestamp(timestamp) {
        return Err(Refusal::NoTimestamp);
    }
    if timestamp < cutoff {
        return Err(Refusal::BelowCutoff);
    }
    if !length_fits(program) {
        return Err(Refusal::WrongProgramLength);
    }
    if 1 < version {
        return Err(Refusal::NoVersion);
    }
    if !well_formed(program) {
        return Err(Refusal::Malformed);
    }
    Ok(())
}

// The answer to a program of a version whose timestamp is held at a place: already held there, or refusal 8.
pub fn compare(
    place: usize,
    lengths: &[u16],
    programs: &[u8],
    versions: &[u16],
    version: u16,
    program: &[u8],
) -> Result<Outcome, Refusal>
    requires { (place < length lengths.now) × (length programs.now ≡ 256 * length lengths.now) × (get_or lengths.now place 0 ≤ 32) × (length versions.now ≡ length lengths.now) }
    ensures { as_answer result
        ≡ compared_answer (code_in lengths.now programs.now versions.now place)
        (code version program.now) }
{
    let start = 256 * place;
    let end = start + 8 * (lengths[place] as usize);
    let held = &programs[start..end];
    if (versions[place] == version) & (held == program) {
        return Ok(Outcome::Held);
    }
    Err(Refusal::HeldOtherwise)
}
