// Turn and drain for programs in other languages, as a static library. Each answer is one number, and what it tells besides stands in a lent slice.
#![tactic(auto)]

ghost use Rattle.std.specs.Prelude.{◌≡◌};
ghost use Rattle.model.specs.Tables.{tables, with_turn};
ghost use Rattle.model.specs.Calls.{reply, drain_with_totals};
ghost use Rattle.answer_numbers.specs.Numbers.{numbered, totals_numbers, turn_numbers};

use answer_numbers::{done_number, put_turned};
use checker::{drain, turn};

// One turn: the number of its answer. `values` has two entries, which get the timestamp of the change whose turn it was and the place where it faulted.
#[unsafe(no_mangle)]
pub extern "C" fn tolbezun_turn(
    n: usize,
    held: &[u16],
    timestamps: &[u64],
    order: &[u16],
    status: &mut [u16],
    withdrawn: &[u16],
    lengths: &[u16],
    programs: &[u8],
    reads: &mut [u16],
    writes: &mut [u16],
    sources: &mut [u16],
    seen: &mut [i32],
    targets: &mut [u16],
    written: &mut [i32],
    view: &mut [i32],
    versions: &[u16],
    cutoff: &[u64],
    kept: &[i32],
    values: &mut [u64],
) -> u8
    ensures { let T =
        tables held.now timestamps.now order.now status.old withdrawn.now
        lengths.now programs.now reads.old writes.old sources.old
        seen.old targets.old written.old view.old versions.now cutoff.now kept.now in
        reply (numbered result values.new)
        (with_turn T status.new reads.new writes.new sources.new seen.new
        targets.new written.new view.new)
        ≡ turn_numbers n T values.old }
{
    if values.len() != 2 {
        return 17;
    }
    let answer = turn(
        n, held, timestamps, order, status, withdrawn, lengths, programs, reads, writes, sources,
        seen, targets, written, view, versions, cutoff, kept,
    );
    put_turned(answer, values)
}

// A drain: 0 done, else the refusal. `totals` has 1,024 entries, four for each console: how many turns of its changes ran, stood, were cleared and faulted.
#[unsafe(no_mangle)]
pub extern "C" fn tolbezun_drain(
    n: usize,
    held: &[u16],
    timestamps: &[u64],
    order: &[u16],
    status: &mut [u16],
    withdrawn: &[u16],
    lengths: &[u16],
    programs: &[u8],
    reads: &mut [u16],
    writes: &mut [u16],
    sources: &mut [u16],
    seen: &mut [i32],
    targets: &mut [u16],
    written: &mut [i32],
    view: &mut [i32],
    versions: &[u16],
    cutoff: &[u64],
    kept: &[i32],
    totals: &mut [u16],
) -> u8
    ensures { let T =
        tables held.now timestamps.now order.now status.old withdrawn.now
        lengths.now programs.now reads.old writes.old sources.old
        seen.old targets.old written.old view.old versions.now cutoff.now kept.now in
        reply (numbered result totals.new)
        (with_turn T status.new reads.new writes.new sources.new seen.new
        targets.new written.new view.new)
        ≡ totals_numbers (drain_with_totals n T totals.old) }
{
    done_number(drain(
        n, held, timestamps, order, status, withdrawn, lengths, programs, reads, writes, sources,
        seen, targets, written, view, versions, cutoff, kept, totals,
    ))
}
