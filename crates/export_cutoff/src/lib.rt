// The cutoff for programs in other languages, as a static library. The answer is one number.
#![tactic(auto)]

ghost use Rattle.std.specs.Prelude.{◌≡◌};
ghost use Rattle.model.specs.Tables.{tables, with_cutoff};
ghost use Rattle.model.specs.Calls.{answer_number, reply, raise_cutoff};
ghost use Rattle.answer_numbers.specs.Numbers.{answering};

use answer_numbers::done_number;
use cutoff::raise_cutoff;

// The cutoff raised to a timestamp: 0 done, else the refusal.
#[unsafe(no_mangle)]
pub extern "C" fn tolbezun_cutoff(
    n: usize,
    held: &mut [u16],
    timestamps: &mut [u64],
    order: &mut [u16],
    status: &mut [u16],
    withdrawn: &mut [u16],
    lengths: &mut [u16],
    programs: &mut [u8],
    reads: &mut [u16],
    writes: &mut [u16],
    sources: &mut [u16],
    seen: &mut [i32],
    targets: &mut [u16],
    written: &mut [i32],
    view: &[i32],
    versions: &mut [u16],
    cutoff: &mut [u64],
    kept: &mut [i32],
    timestamp: u64,
) -> u8
    ensures { let T =
        tables held.old timestamps.old order.old status.old
        withdrawn.old lengths.old programs.old reads.old
        writes.old sources.old seen.old targets.old written.old
        view.now versions.old cutoff.old kept.old in
        reply result
        (with_cutoff T held.new timestamps.new order.new status.new
        withdrawn.new lengths.new programs.new reads.new writes.new
        sources.new seen.new targets.new written.new versions.new
        cutoff.new kept.new)
        ≡ answering answer_number (raise_cutoff n T timestamp) }
{
    done_number(raise_cutoff(
        n, held, timestamps, order, status, withdrawn, lengths, programs, reads, writes, sources,
        seen, targets, written, view, versions, cutoff, kept, timestamp,
    ))
}
