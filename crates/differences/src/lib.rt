// The settings at which the values before and those after a change differ: collected, and restored.
#![tactic(auto)]

ghost use Rattle.std.specs.Prelude.{◌≡◌, ◌+◌, ◌≤◌, length};
ghost use Rattle.writers.specs.Writers.{OfSettings};
ghost use Rattle.differences.specs.Differences.{Collected, restored};

// The settings of a list at which the values before and after differ, put behind the first count of those that changed. Answers how many there are then.
pub fn collect_changed(
    settings: &[u16],
    before: &[i32; 1024],
    after: &[i32; 1024],
    changed: &mut [u16; 64],
    count: usize,
) -> usize
    requires { OfSettings settings.now × (count + length settings.now ≤ 64) × (length changed.old ≡ 64) }
    ensures { Collected settings.now before.now after.now
        count changed.old result changed.new }
{
    let mut total = count;
    for s in settings {
        let x = *s as usize;
        changed[total] = *s;
        if before[x] != after[x] {
            total += 1;
        }
    }
    total
}

// At each of some settings the value before is made the value after.
pub fn restore(settings: &[u16], after: &[i32; 1024], before: &mut [i32; 1024])
    requires { OfSettings settings.now }
    ensures { before.new ≡ restored settings.now after.now before.old }
{
    for setting in settings {
        let s = *setting as usize;
        before[s] = after[s];
    }
}
