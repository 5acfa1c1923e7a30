// The view follows a turn, setting by setting.
#![tactic(auto)]

ghost use Rattle.std.specs.Prelude.{◌≡◌, ◌+◌, ◌<◌, length};
ghost use Rattle.machine.specs.Settings.{setting_count};
ghost use Rattle.writers.specs.Writers.{OfSettings};
ghost use Rattle.view_updates.specs.View.{followed};

use uses::wide;

// The view takes the new value of each changed setting that no change above position k writes.
pub fn follow_view(
    changed: &[u16],
    k: usize,
    writers: &[u16; 1024],
    after: &[i32; 1024],
    view: &mut [i32],
)
    requires { (k < 4096) × OfSettings changed.now × (length view.old ≡ setting_count) }
    ensures { view.new
        ≡ followed writers.now (k + 1) after.now changed.now view.old }
{
    let from = k + 1;
    for s in changed {
        let s = *s as usize;
        if wide(writers[s]) <= from {
            view[s] = after[s];
        }
    }
}
