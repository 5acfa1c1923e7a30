// The settings that change where a change's writes are replaced by new ones, and the values before and after it.
#![tactic(auto)]

ghost use Rattle.std.specs.Prelude.{◌≡◌, length, get_or};
ghost use Rattle.machine.specs.Settings.{entries};
ghost use Rattle.model.specs.Tables.{list_in};
ghost use Rattle.values.specs.Values.{lists_of, values_as_of, Lookable};
ghost use Rattle.alterations.specs.Altered.{BothWrites, Alterable, Altered};

use differences::collect_changed;
use values::{History, KnownValues};
use write_lists::carry;

// The old writes carried into the values before, the new ones into those after: the settings of both at which they differ. Answers how many.
fn alter_writes(
    old_targets: &[u16],
    old_written: &[i32],
    new_targets: &[u16],
    new_written: &[i32],
    k: usize,
    history: &History,
    values: &mut KnownValues,
    changed: &mut [u16; 64],
) -> usize
    requires { BothWrites old_targets.now old_written.now new_targets.now new_written.now
        × (length changed.old ≡ 64)
        × Lookable k (lists_of history.now) values.old }
    ensures { let env = values_as_of (lists_of history.now) k in
        let old = entries (length old_targets.now) old_targets.now old_written.now in
        let new = entries (length new_targets.now) new_targets.now new_written.now in
        Altered old new env values.old values.new result changed.new }
{
    values.know_list(old_targets, k, history);
    values.know_list(new_targets, k, history);
    carry(old_targets, old_written, &mut values.before);
    carry(new_targets, new_written, &mut values.after);
    let count = collect_changed(old_targets, &values.before, &values.after, changed, 0);
    collect_changed(new_targets, &values.before, &values.after, changed, count)
}

// The same for the writes of the change at a position and new ones.
pub fn alter(
    k: usize,
    history: &History,
    new_targets: &[u16],
    new_written: &[i32],
    values: &mut KnownValues,
    changed: &mut [u16; 64],
) -> usize
    requires { let h = lists_of history.now in
        Alterable k h new_targets.now new_written.now × (length changed.old ≡ 64) × Lookable k h values.old }
    ensures { let h = lists_of history.now in
        let old = list_in h.writes h.targets h.written (get_or h.order k 0) in
        let new = entries (length new_targets.now) new_targets.now new_written.now in
        Altered old new (values_as_of h k) values.old values.new result changed.new }
{
    let place = history.order[k] as usize;
    let begin = 32 * place;
    let end = begin + history.writes[place] as usize;
    alter_writes(
        &history.targets[begin..end],
        &history.written[begin..end],
        new_targets,
        new_written,
        k,
        history,
        values,
        changed,
    )
}
