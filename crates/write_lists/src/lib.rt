// A write list carried into values.
#![tactic(auto)]

ghost use Rattle.std.specs.Prelude.{◌≡◌, ◌<◌, length, slice_index, EachIndex};
ghost use Rattle.machine.specs.Settings.{entries, carry};

// A write list carried into some values, entry by entry: each setting takes the value beside it.
pub fn carry(settings: &[u16], values: &[i32], into: &mut [i32])
    requires { (length settings.now ≡ length values.now)
        × EachIndex settings.now (λ k. slice_index settings.now k < length into.old) }
    ensures { into.new
        ≡ carry (entries (length settings.now) settings.now values.now) into.old }
{
    for (s, v) in settings.iter().zip(values) {
        into[*s as usize] = *v;
    }
}
