// The tables of changes cleared: every entry to 0.
#![tactic(auto)]

ghost use Rattle.clearing.specs.Cleared.{ChangesCleared, ListsCleared};

use zeros::clear;

// The tables of the changes themselves, and the cutoff.
pub fn clear_changes(
    held: &mut [u16],
    timestamps: &mut [u64],
    order: &mut [u16],
    status: &mut [u16],
    withdrawn: &mut [u16],
    lengths: &mut [u16],
    programs: &mut [u8],
    versions: &mut [u16],
    cutoff: &mut [u64],
)
    ensures { ChangesCleared
        held.old timestamps.old order.old status.old withdrawn.old lengths.old programs.old versions.old cutoff.old
        held.new timestamps.new order.new status.new withdrawn.new lengths.new programs.new versions.new cutoff.new }
{
    clear(held);
    clear(timestamps);
    clear(order);
    clear(status);
    clear(withdrawn);
    clear(lengths);
    clear(programs);
    clear(versions);
    clear(cutoff);
}

// The tables of the read and write lists.
pub fn clear_lists(
    reads: &mut [u16],
    writes: &mut [u16],
    sources: &mut [u16],
    seen: &mut [i32],
    targets: &mut [u16],
    written: &mut [i32],
)
    ensures { ListsCleared
        reads.old writes.old sources.old seen.old targets.old written.old
        reads.new writes.new sources.new seen.new targets.new written.new }
{
    clear(reads);
    clear(writes);
    clear(sources);
    clear(seen);
    clear(targets);
    clear(written);
}
