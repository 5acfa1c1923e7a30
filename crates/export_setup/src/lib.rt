// Set up for programs in other languages, as a static library. The answer is one number.
#![tactic(auto)]

ghost use Rattle.std.specs.Prelude.{◌≡◌};
ghost use Rattle.model.specs.Tables.{tables};
ghost use Rattle.model.specs.Calls.{answer_number, reply, set_up};
ghost use Rattle.answer_numbers.specs.Numbers.{answering};

use answer_numbers::done_number;
use setup::set_up;

// Set up: the number of its answer.
#[unsafe(no_mangle)]
pub extern "C" fn tolbezun_set_up(
    n: usize,
    held: &mut [u16],
    timestamps: &mut [u64],
    order: &mut [u16],
    status: &mut [u16],
    withdrawn: &mut [u16],
    lengths: &mut [u16],
    programs: &mut [u8],
    reads: &mut [u16],
    writes: &mut [u16],
    sources: &mut [u16],
    seen: &mut [i32],
    targets: &mut [u16],
    written: &mut [i32],
    view: &mut [i32],
    versions: &mut [u16],
    cutoff: &mut [u64],
    kept: &mut [i32],
) -> u8
    ensures { let T =
        tables held.old timestamps.old order.old status.old withdrawn.old
        lengths.old programs.old reads.old writes.old sources.old
        seen.old targets.old written.old view.old versions.old cutoff.old kept.old in
        reply result
        (tables held.new timestamps.new order.new status.new withdrawn.new
        lengths.new programs.new reads.new writes.new sources.new
        seen.new targets.new written.new view.new versions.new cutoff.new kept.new)
        ≡ answering answer_number (set_up n T) }
{
    done_number(set_up(
        n, held, timestamps, order, status, withdrawn, lengths, programs, reads, writes, sources,
        seen, targets, written, view, versions, cutoff, kept,
    ))
}
