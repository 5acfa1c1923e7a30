// Changes dropped by a cutoff: their writes carried into the kept values, and the order list without them.
#![tactic(auto)]

ghost use Rattle.std.specs.Prelude.{◌≡◌, length};
ghost use Rattle.dropping.specs.Dropping.{Droppable, Dropped};

use carrying::carry_first;
use compaction::{find_remaining, renumber};
use search::rank;
use tables::held_count;

// The changes stamped below a timestamp dropped: their writes are carried into the kept values, the order list is that of the others, and the held count and the cutoff are stored. The places that remain are put into `places`, and their number is the answer.
pub fn drop_changes(
    timestamp: u64,
    held: &mut [u16],
    timestamps: &[u64],
    order: &mut [u16],
    writes: &[u16],
    targets: &[u16],
    written: &[i32],
    cutoff: &mut [u64],
    kept: &mut [i32],
    places: &mut [u16; 4096],
) -> usize
    requires { Droppable held.old timestamps.now order.old writes.now targets.now written.now cutoff.old kept.old
        × (length places.old ≡ 4096) }
    ensures { Dropped timestamp held.old timestamps.now order.old writes.now
        targets.now written.now cutoff.old kept.old result held.new
        order.new cutoff.new kept.new places.new }
{
    let count = held_count(held);
    let first = rank(timestamp, count, order, timestamps);
    carry_first(first, order, writes, targets, written, kept);
    let mut numbers = [0u16; 4096];
    let found = find_remaining(timestamp, count, timestamps, places, &mut numbers);
    renumber(first, count, &numbers, order);
    held[0] = found as u16;
    cutoff[0] = timestamp;
    found
}
