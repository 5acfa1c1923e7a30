// Searches in the order list: a timestamp, and the change whose turn it is.
#![tactic(auto)]

ghost use Rattle.std.specs.Prelude.{◌≡◌, length};
ghost use Rattle.search.specs.Searches.{rank_of, stamped_at, position_of, found_of, waiting_of, PlacesWithin};

// How many of the first count changes of the order list are stamped below t, counted down from the highest.
pub fn rank(t: u64, count: usize, order: &[u16], timestamps: &[u64]) -> usize
    requires { PlacesWithin count order.now (length timestamps.now) }
    ensures { result ≡ rank_of order.now timestamps.now t count }
{
    for k in (0..count).rev() {
        let place = order[k] as usize;
        if timestamps[place] < t {
            return k + 1;
        }
    }
    0
}

// Whether the change at position k of the first count of the order list is of timestamp t.
pub fn stamped_at(t: u64, k: usize, count: usize, order: &[u16], timestamps: &[u64]) -> bool
    requires { PlacesWithin count order.now (length timestamps.now) }
    ensures { result ≡ stamped_at order.now timestamps.now t count k }
{
    if count <= k {
        return false;
    }
    let place = order[k] as usize;
    timestamps[place] == t
}

// The position of the change of timestamp t among the first count of the order list.
pub fn position(t: u64, count: usize, order: &[u16], timestamps: &[u64]) -> Option<usize>
    requires { PlacesWithin count order.now (length timestamps.now) }
    ensures { result ≡ found_of (position_of order.now timestamps.now t count) }
{
    let k = rank(t, count, order, timestamps);
    stamped_at(t, k, count, order, timestamps).then_some(k)
}

// The position of the first change of the order list that is New or Invalid. Document 01 names this form: a loop that yields the found place by break.
pub fn waiting(count: usize, order: &[u16], status: &[u16]) -> Option<usize>
    requires { PlacesWithin count order.now (length status.now) }
    ensures { result ≡ found_of (waiting_of order.now status.now count) }
{
    let mut k = 0;
    loop {
        if count <= k {
            break None;
        }
        let place = order[k] as usize;
        if status[place] != 1 {
            break Some(k);
        }
        k += 1;
    }
}
