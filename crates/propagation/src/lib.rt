// What follows new writes of a change, in Figure 1's order: later readers are marked, the view follows, and the values are those after the new writes.
#![tactic(auto)]

ghost use Rattle.std.specs.Prelude.{length};
ghost use Rattle.machine.specs.Settings.{entries};
ghost use Rattle.uses.specs.Columns.{lent_columns};
ghost use Rattle.propagation.specs.Propagated.{Propagable, Propagated};

use alterations::alter;
use differences::restore;
use marking::mark_settings;
use uses::{Columns, SettingUses};
use values::{History, KnownValues};
use view_updates::follow_view;

// What follows new writes for the change at position k: later readers of the settings that change are marked, the view follows, and the values are those after the new writes.
pub fn propagate(
    k: usize,
    new_targets: &[u16],
    new_written: &[i32],
    columns: &Columns,
    written: &[i32],
    kept: &[i32],
    status: &mut [u16],
    view: &mut [i32],
    values: &mut KnownValues,
    uses: &mut SettingUses,
)
    requires { Propagable k (lent_columns columns.now) written.now kept.now new_targets.now new_written.now status.old view.old values.old uses.old }
    ensures { Propagated k (lent_columns columns.now) written.now kept.now (entries (length new_targets.now) new_targets.now new_written.now)
        status.old view.old uses.old status.new view.new uses.new values.new }
{
    let history = History {
        order: columns.order,
        writes: columns.writes,
        targets: columns.targets,
        written,
        kept,
    };
    let mut slots = [0u16; 64];
    let count = alter(k, &history, new_targets, new_written, values, &mut slots);
    let changed = &slots[..count];
    mark_settings(changed, k, columns, status, uses);
    follow_view(changed, k, &uses.writers, &values.after, view);
    restore(changed, &values.after, &mut values.before);
}
