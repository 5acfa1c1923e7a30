// Set up: every table to 0, the view and the kept values to the start values.
#![tactic(auto)]

ghost use Rattle.std.specs.Prelude.{◌≡◌};
ghost use Rattle.model.specs.Answers.{as_done};
ghost use Rattle.model.specs.Tables.{tables};
ghost use Rattle.model.specs.Calls.{reply, set_up};

use clearing::{clear_changes, clear_lists};
use fresh::fill_start;
use model::Refusal;
use tables::Tables;
use tables::form::lengths_fit;

pub fn set_up(
    n: usize,
    held: &mut [u16],
    timestamps: &mut [u64],
    order: &mut [u16],
    status: &mut [u16],
    withdrawn: &mut [u16],
    lengths: &mut [u16],
    programs: &mut [u8],
    reads: &mut [u16],
    writes: &mut [u16],
    sources: &mut [u16],
    seen: &mut [i32],
    targets: &mut [u16],
    written: &mut [i32],
    view: &mut [i32],
    versions: &mut [u16],
    cutoff: &mut [u64],
    kept: &mut [i32],
) -> Result<(), Refusal>
    ensures { let T =
        tables held.old timestamps.old order.old status.old withdrawn.old
        lengths.old programs.old reads.old writes.old sources.old
        seen.old targets.old written.old view.old versions.old cutoff.old kept.old in
        reply (as_done result)
        (tables held.new timestamps.new order.new status.new withdrawn.new
        lengths.new programs.new reads.new writes.new sources.new
        seen.new targets.new written.new view.new versions.new cutoff.new kept.new)
        ≡ set_up n T }
{
    if !lengths_fit(
        n,
        &Tables {
            held,
            timestamps,
            order,
            status,
            withdrawn,
            lengths,
            programs,
            reads,
            writes,
            sources,
            seen,
            targets,
            written,
            view,
            versions,
            cutoff,
            kept,
        },
    ) {
        return Err(Refusal::WrongLengths);
    }
    clear_changes(
        held, timestamps, order, status, withdrawn, lengths, programs, versions, cutoff,
    );
    clear_lists(reads, writes, sources, seen, targets, written);
    fill_start(view);
    fill_start(kept);
    Ok(())
}
