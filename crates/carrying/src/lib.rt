// Writes carried into values: those of a place, of the first changes of the order list, of the changes below a position.
#![tactic(auto)]

ghost use Rattle.std.specs.Prelude.{◌≡◌, ◌<◌, length, get_or};
ghost use Rattle.machine.specs.Settings.{carry};
ghost use Rattle.model.specs.Tables.{slots, list_in};
ghost use Rattle.writers.specs.Writers.{OfSettings, WriteLists};
ghost use Rattle.values.specs.Values.{lists_of};
ghost use Rattle.carrying.specs.Carrying.{Carried, Carriable, carried_first, CarriedBelow};

use values::{History, KnownValues};
use write_lists::carry;

// The writes of a place carried into some values.
fn carry_writes(place: usize, writes: &[u16], targets: &[u16], written: &[i32], values: &mut [i32])
    requires { (place < length writes.now)
        × WriteLists writes.now targets.now written.now
        × OfSettings (slots 32 place (get_or writes.now place 0) targets.now)
        × (length values.old ≡ 1024) }
    ensures { values.new
        ≡ carry (list_in writes.now targets.now written.now place) values.old }
{
    let begin = 32 * place;
    let end = begin + writes[place] as usize;
    carry(&targets[begin..end], &written[begin..end], values);
}

// The writes of a place carried into both lists of values.
pub fn carry_place(place: usize, history: &History, values: &mut KnownValues)
    requires { let h = lists_of history.now in
        (place < length h.writes)
        × WriteLists h.writes h.targets h.written
        × OfSettings (slots 32 place (get_or h.writes place 0) h.targets) }
    ensures { let h = lists_of history.now in
        Carried (list_in h.writes h.targets h.written place) values.old values.new }
{
    carry_writes(
        place,
        history.writes,
        history.targets,
        history.written,
        &mut values.before,
    );
    carry_writes(
        place,
        history.writes,
        history.targets,
        history.written,
        &mut values.after,
    );
}

// The writes of the first count changes of the order list carried into some values, one change after the other.
pub fn carry_first(
    count: usize,
    order: &[u16],
    writes: &[u16],
    targets: &[u16],
    written: &[i32],
    values: &mut [i32],
)
    requires { Carriable count order.now writes.now targets.now written.now × (length values.old ≡ 1024) }
    ensures { values.new
        ≡ carried_first (list_in writes.now targets.now written.now) order.now
        values.old count }
{
    for place in &order[..count] {
        carry_writes(*place as usize, writes, targets, written, values);
    }
}

// The writes of the changes below a position carried into both lists of values, one change after the other.
pub fn carry_below(k: usize, history: &History, values: &mut KnownValues)
    requires { let h = lists_of history.now in Carriable k h.order h.writes h.targets h.written }
    ensures { CarriedBelow k (lists_of history.now) values.old values.new }
{
    for place in &history.order[..k] {
        carry_place(*place as usize, history, values);
    }
}
