// Tables closed up: the slots of the places that remain are moved down in place, and those behind them are set to 0.
#![tactic(auto)]

ghost use Rattle.std.specs.Prelude.{◌≡◌, ◌≤◌, length, take};
ghost use Rattle.compaction.specs.Closed.{Remaining, closed, Closable, renumbered_by, Renumberable};

use zeros::{Slot, clear};

// The first count places whose timestamps are not below t, by rising number, and for each place how many of these are before it. Answers how many there are.
pub fn find_remaining(
    t: u64,
    count: usize,
    timestamps: &[u64],
    places: &mut [u16; 4096],
    numbers: &mut [u16; 4096],
) -> usize
    requires { (count ≤ 4096) × (count ≤ length timestamps.now) × (length places.old ≡ 4096) × (length numbers.old ≡ 4096) }
    ensures { Remaining t timestamps.now count result places.new numbers.new }
{
    let mut found = 0;
    for i in 0..count {
        places[found] = i as u16;
        numbers[i] = found as u16;
        if t <= timestamps[i] {
            found += 1;
        }
    }
    found
}

// The order list of the places that remain: of its first count entries those from `first` on move to the front, each by the new number of its place; zeros behind them.
pub fn renumber(first: usize, count: usize, numbers: &[u16; 4096], order: &mut [u16])
    requires { Renumberable first count order.old }
    ensures { order.new ≡ renumbered_by numbers.now first count order.old }
{
    let left = count - first;
    for j in 0..left {
        order[j] = numbers[order[first + j] as usize];
    }
    clear(&mut order[left..]);
}

// A table with as many slots for each place as the width, closed up to the first count of some places: zeros behind them.
pub fn close<T: Slot>(width: usize, count: usize, places: &[u16; 4096], table: &mut [T])
    requires { Closable width count places.now table.old }
    ensures { table.new ≡ closed width T.ZERO (take count places.now) table.old }
{
    for (j, place) in places[..count].iter().enumerate() {
        let from = width * *place as usize;
        table.copy_within(from..from + width, width * j);
    }
    clear(&mut table[width * count..]);
}
