// A package taken in on tables just set up.
#![tactic(auto)]

ghost use Rattle.std.specs.Prelude.{◌≡◌};
ghost use Rattle.model.specs.Answers.{as_done};
ghost use Rattle.model.specs.Tables.{tables};
ghost use Rattle.model.specs.Calls.{package_reply, set_up, take_in_package};

use intake::take_in_package;
use model::Refusal;
use setup::set_up;

// The answer to a package that is taken in on tables just set up.
pub fn take_in_anew(
    n: usize,
    bytes: &[u8],
    held: &mut [u16],
    timestamps: &mut [u64],
    order: &mut [u16],
    status: &mut [u16],
    withdrawn: &mut [u16],
    lengths: &mut [u16],
    programs: &mut [u8],
    reads: &mut [u16],
    writes: &mut [u16],
    sources: &mut [u16],
    seen: &mut [i32],
    targets: &mut [u16],
    written: &mut [i32],
    view: &mut [i32],
    versions: &mut [u16],
    cutoff: &mut [u64],
    kept: &mut [i32],
    answers: &mut [u8],
) -> Result<(), Refusal>
    ensures { let T =
        tables held.old timestamps.old order.old status.old withdrawn.old
        lengths.old programs.old reads.old writes.old sources.old
        seen.old targets.old written.old view.old versions.old cutoff.old kept.old in
        package_reply (as_done result)
        (tables held.new timestamps.new order.new status.new withdrawn.new
        lengths.new programs.new reads.new writes.new sources.new
        seen.new targets.new written.new view.new versions.new cutoff.new kept.new)
        answers.new
        ≡ take_in_package n (set_up n T).tables bytes.now answers.old }
{
    set_up(
        n, held, timestamps, order, status, withdrawn, lengths, programs, reads, writes, sources,
        seen, targets, written, view, versions, cutoff, kept,
    )?;
    take_in_package(
        n, held, timestamps, order, status, withdrawn, lengths, programs, reads, writes, sources,
        seen, targets, written, view, versions, cutoff, kept, bytes, answers,
    )
}
