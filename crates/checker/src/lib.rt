// The calls turn and drain.
#![tactic(auto)]

ghost use Rattle.std.specs.Prelude.{◌≡◌};
ghost use Rattle.model.specs.Answers.{as_done, as_turned};
ghost use Rattle.model.specs.Tables.{tables, with_turn};
ghost use Rattle.model.specs.Calls.{reply, turn, totals_reply, drain_with_totals};

use drains::turn_all;
use model::{Refusal, Turn};
use single_turn::turn_once;
use tables::form::fault;
use tables::{Tables, held_count};
use zeros::clear;

// One turn: the answer and the tables after one round of the Checker (Figure 1), with document 01's additions.
pub fn turn(
    n: usize,
    held: &[u16],
    timestamps: &[u64],
    order: &[u16],
    status: &mut [u16],
    withdrawn: &[u16],
    lengths: &[u16],
    programs: &[u8],
    reads: &mut [u16],
    writes: &mut [u16],
    sources: &mut [u16],
    seen: &mut [i32],
    targets: &mut [u16],
    written: &mut [i32],
    view: &mut [i32],
    versions: &[u16],
    cutoff: &[u64],
    kept: &[i32],
) -> Result<Turn, Refusal>
    ensures { let T =
        tables held.now timestamps.now order.now status.old withdrawn.now
        lengths.now programs.now reads.old writes.old sources.old
        seen.old targets.old written.old view.old versions.now cutoff.now kept.now in
        reply (as_turned result)
        (with_turn T status.new reads.new writes.new sources.new seen.new
        targets.new written.new view.new)
        ≡ turn n T }
{
    let tables = Tables {
        held,
        timestamps,
        order,
        status,
        withdrawn,
        lengths,
        programs,
        reads,
        writes,
        sources,
        seen,
        targets,
        written,
        view,
        versions,
        cutoff,
        kept,
    };
    // Nothing is done before the tables are tested.
    fault(n, &tables)?;
    let count = held_count(held);
    Ok(turn_once(
        count, timestamps, order, status, withdrawn, lengths, programs, reads, writes, sources,
        seen, targets, written, view, versions, kept,
    ))
}

// Turns until idle, and for each console how many ran, stood, were cleared and faulted.
pub fn drain(
    n: usize,
    held: &[u16],
    timestamps: &[u64],
    order: &[u16],
    status: &mut [u16],
    withdrawn: &[u16],
    lengths: &[u16],
    programs: &[u8],
    reads: &mut [u16],
    writes: &mut [u16],
    sources: &mut [u16],
    seen: &mut [i32],
    targets: &mut [u16],
    written: &mut [i32],
    view: &mut [i32],
    versions: &[u16],
    cutoff: &[u64],
    kept: &[i32],
    totals: &mut [u16],
) -> Result<(), Refusal>
    ensures { let T =
        tables held.now timestamps.now order.now status.old withdrawn.now
        lengths.now programs.now reads.old writes.old sources.old
        seen.old targets.old written.old view.old versions.now cutoff.now kept.now in
        totals_reply (as_done result)
        (with_turn T status.new reads.new writes.new sources.new seen.new
        targets.new written.new view.new)
        totals.new
        ≡ drain_with_totals n T totals.old }
{
    if totals.len() != 1024 {
        return Err(Refusal::WrongLengths);
    }
    let tables = Tables {
        held,
        timestamps,
        order,
        status,
        withdrawn,
        lengths,
        programs,
        reads,
        writes,
        sources,
        seen,
        targets,
        written,
        view,
        versions,
        cutoff,
        kept,
    };
    // The totals are set to 0 only where the tables are in form.
    fault(n, &tables)?;
    clear(totals);
    let count = held_count(held);
    turn_all(
        count, timestamps, order, status, withdrawn, lengths, programs, reads, writes, sources,
        seen, targets, written, view, versions, kept, totals,
    );
    Ok(())
}
