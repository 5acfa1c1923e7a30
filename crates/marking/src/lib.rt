// Later readers of changed settings are marked, setting by setting. What is known of each setting spares walks in which nothing can be marked.
#![tactic(auto)]

ghost use Rattle.std.specs.Prelude.{◌≡◌, ◌+◌, ◌-◌, ◌<◌, ◌≤◌, length, get_or};
ghost use Rattle.machine.specs.Settings.{setting_count};
ghost use Rattle.model.specs.Form.{holds};
ghost use Rattle.writers.specs.Writers.{OfSettings};
ghost use Rattle.uses.specs.Columns.{lent_columns, list_at, Listed, Walkable};
ghost use Rattle.uses.specs.Uses.{Markable, Marked};
ghost use Rattle.marking.specs.Marks as marks;

use uses::{Columns, SettingUses, wide};
use writers::names_setting;

// Whether the list of a place names a setting. Slots behind the list hold 0, so a setting other than 0 is looked for in all 32: a loop of known length is the faster one.
fn names_at(s: u16, place: usize, counts: &[u16], settings: &[u16]) -> bool
    requires { Listed place counts.now settings.now }
    ensures { result ≡ holds s (list_at counts.now settings.now place) }
{
    let begin = 32 * place;
    let zero = s == 0;
    if zero {
        let end = begin + counts[place] as usize;
        return names_setting(s, &settings[begin..end]);
    }
    names_setting(s, &settings[begin..begin + 32])
}

// A Valid change that reads a setting becomes Invalid. Whether it writes the setting.
fn mark_place(s: u16, place: usize, columns: &Columns, status: &mut [u16]) -> bool
    requires { let C = lent_columns columns.now in
        (place < length status.old) × Listed place C.reads C.sources × Listed place C.writes C.targets }
    ensures { let C = lent_columns columns.now in
        (result ≡ holds s (list_at C.writes C.targets place))
        × (status.new ≡ marks.marked_place s C.reads C.sources place status.old) }
{
    let writer = names_at(s, place, columns.writes, columns.targets);
    let valid = status[place] == 1;
    if valid {
        let reader = names_at(s, place, columns.reads, columns.sources);
        if reader {
            status[place] = 2;
        }
    }
    writer
}

// From a position of the order list up to another: a Valid change that reads the setting becomes Invalid; behind one that writes it the walk ends. Where it ended.
pub fn mark_setting(s: u16, from: usize, to: usize, columns: &Columns, status: &mut [u16]) -> usize
    requires { (from ≤ to) × (to ≤ length columns.now.order.now)
        × Walkable (lent_columns columns.now) (length status.old) }
    ensures { let C = lent_columns columns.now in
        (status.new ≡ marks.marked_from C s from (to - from) status.old)
        × (result ≡ marks.end_from C s from (to - from)) }
{
    for p in from..to {
        let place = columns.order[p] as usize;
        let writer = mark_place(s, place, columns, status);
        if writer {
            return p + 1;
        }
    }
    to
}

// One changed setting: nothing is to be marked where no later Valid change reads it, or where an earlier walk has settled it beyond the position.
fn mark_unsettled(
    s: u16,
    from: usize,
    columns: &Columns,
    status: &mut [u16],
    uses: &mut SettingUses,
)
    requires { (s < setting_count) × Markable from (lent_columns columns.now) status.old uses.old }
    ensures { let C = lent_columns columns.now in
        (status.new ≡ marks.marked_from C s from (get_or uses.old.readers s 0 - from) status.old)
        × Marked from C status.new uses.old uses.new }
{
    let to = wide(uses.readers[s as usize]);
    if from < to {
        let done = wide(uses.settled[s as usize]);
        let unsettled = done <= from;
        if unsettled {
            let end = mark_setting(s, from, to, columns, status);
            uses.settled[s as usize] = end as u16;
        }
    }
}

// Later readers of each changed setting marked, as a turn at position k does: of each setting up to and including its next writer.
pub fn mark_settings(
    changed: &[u16],
    k: usize,
    columns: &Columns,
    status: &mut [u16],
    uses: &mut SettingUses,
)
    requires { (k < 4096) × OfSettings changed.now × Markable (k + 1) (lent_columns columns.now) status.old uses.old }
    ensures { let C = lent_columns columns.now in
        (status.new ≡ marks.marked_settings C uses.old.readers (k + 1) changed.now status.old)
        × Marked (k + 1) C status.new uses.old uses.new }
{
    let from = k + 1;
    for s in changed {
        mark_unsettled(*s, from, columns, status, uses);
    }
}
