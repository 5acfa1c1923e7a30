// The call that raises the cutoff: changes stamped below it are dropped, and each setting's value as of it is kept.
#![tactic(auto)]

ghost use Rattle.std.specs.Prelude.{◌≡◌};
ghost use Rattle.model.specs.Answers.{as_done};
ghost use Rattle.model.specs.Tables.{tables, with_cutoff};
ghost use Rattle.model.specs.Calls.{reply, raise_cutoff};

use closing::{close_blocks, close_columns};
use cutoff_refusal::cutoff_refusal;
use dropping::drop_changes;
use model::Refusal;
use tables::Tables;

pub fn raise_cutoff(
    n: usize,
    held: &mut [u16],
    timestamps: &mut [u64],
    order: &mut [u16],
    status: &mut [u16],
    withdrawn: &mut [u16],
    lengths: &mut [u16],
    programs: &mut [u8],
    reads: &mut [u16],
    writes: &mut [u16],
    sources: &mut [u16],
    seen: &mut [i32],
    targets: &mut [u16],
    written: &mut [i32],
    view: &[i32],
    versions: &mut [u16],
    cutoff: &mut [u64],
    kept: &mut [i32],
    timestamp: u64,
) -> Result<(), Refusal>
    ensures { let T =
        tables held.old timestamps.old order.old status.old
        withdrawn.old lengths.old programs.old reads.old
        writes.old sources.old seen.old targets.old written.old
        view.now versions.old cutoff.old kept.old in
        reply (as_done result)
        (with_cutoff T held.new timestamps.new order.new status.new
        withdrawn.new lengths.new programs.new reads.new writes.new
        sources.new seen.new targets.new written.new versions.new
        cutoff.new kept.new)
        ≡ raise_cutoff n T timestamp }
{
    let tables = Tables {
        held,
        timestamps,
        order,
        status,
        withdrawn,
        lengths,
        programs,
        reads,
        writes,
        sources,
        seen,
        targets,
        written,
        view,
        versions,
        cutoff,
        kept,
    };
    cutoff_refusal(n, &tables, timestamp)?;
    let mut places = [0u16; 4096];
    let found = drop_changes(
        timestamp,
        held,
        timestamps,
        order,
        writes,
        targets,
        written,
        cutoff,
        kept,
        &mut places,
    );
    close_columns(
        found, &places, timestamps, status, withdrawn, lengths, reads, writes, versions,
    );
    close_blocks(found, &places, programs, sources, seen, targets, written);
    Ok(())
}
