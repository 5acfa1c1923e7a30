// The values as of a position of the order list: looked up once each, and then known.
#![tactic(auto)]

ghost use Rattle.std.specs.Prelude.{◌≡◌, ℕ, ◌<◌, length};
ghost use Rattle.machine.specs.Settings.{Environment, value_in, entries};
ghost use Rattle.model.specs.History.{all_hold};
ghost use Rattle.writers.specs.Writers.{OfSettings, WriteLists};
ghost use Rattle.search.specs.Searches.{PlacesWithin};
ghost use Rattle.values.specs.Values.{lists_of, values_as_of, IsKnown, AllKnown, Known, Lookable, Looked};

use writers::previous_write;

// What the values as of a position of the order list are looked up in: the order list, the write lists by place, and the kept values.
#[derive(Clone, Copy, Drop)]
pub struct History<'a> {
    pub order: &'a [u16],
    pub writes: &'a [u16],
    pub targets: &'a [u16],
    pub written: &'a [i32],
    pub kept: &'a [i32],
}

impl History<'_> {
    // The value of a setting as of a position of the order list: that of the previous write, or the kept value.
    pub fn value_below(&self, s: u16, k: usize) -> i32
        requires { let h = lists_of self.now in
            PlacesWithin k h.order (length h.writes)
            × WriteLists h.writes h.targets h.written
            × (s < length h.kept) }
        ensures { result ≡ values_as_of (lists_of self.now) k s }
    {
        previous_write(s, k, self.order, self.writes, self.targets, self.written).unwrap_or(
            self.kept[s as usize],
        )
    }
}

// Of each setting whether its value is known, and the values before and after a change; both are the same where there is no change yet.
#[derive(Drop)]
pub struct KnownValues {
    pub known: [bool; 1024],
    pub before: [i32; 1024],
    pub after: [i32; 1024],
}

impl KnownValues {
    // No value is known.
    pub fn none() -> Self
        ensures { (env : Environment) → Known env result }
    {
        KnownValues {
            known: [false; 1024],
            before: [0; 1024],
            after: [0; 1024],
        }
    }

    // Every value is known: those of a list, before and after.
    pub fn all(values: &[i32]) -> Self
        requires { length values.now ≡ 1024 }
        ensures right { Known (value_in values.now) result }
        ensures known { (s : ℕ) → s < 1024 → IsKnown result s }
    {
        let mut all = KnownValues {
            known: [true; 1024],
            before: [0; 1024],
            after: [0; 1024],
        };
        all.before.copy_from_slice(values);
        all.after.copy_from_slice(values);
        all
    }

    // The value of a setting as of a position: the known one, or one that is searched for and then known.
    pub fn value_of(&mut self, s: u16, k: usize, history: &History) -> i32
        requires { (s < 1024) × Lookable k (lists_of history.now) self.old }
        ensures { let env = values_as_of (lists_of history.now) k in
            (result ≡ env s) × IsKnown self.new s × Looked env self.old self.new }
    {
        let x = s as usize;
        if self.known[x] {
            return self.after[x];
        }
        let v = history.value_below(s, k);
        self.before[x] = v;
        self.after[x] = v;
        self.known[x] = true;
        v
    }

    // Whether each of the values seen is the value as of a position.
    pub fn seen_hold(&mut self, sources: &[u16], seen: &[i32], k: usize, history: &History) -> bool
        requires { (length sources.now ≡ length seen.now)
            × OfSettings sources.now
            × Lookable k (lists_of history.now) self.old }
        ensures { let env = values_as_of (lists_of history.now) k in
            (result ≡ all_hold (entries (length sources.now) sources.now seen.now) env)
            × Looked env self.old self.new }
    {
        for (s, v) in sources.iter().zip(seen) {
            let holds = self.value_of(*s, k, history) == *v;
            if !holds {
                return false;
            }
        }
        true
    }

    // The values of some settings as of a position are known from now on.
    pub fn know_list(&mut self, settings: &[u16], k: usize, history: &History)
        requires { OfSettings settings.now × Lookable k (lists_of history.now) self.old }
        ensures { let env = values_as_of (lists_of history.now) k in
            AllKnown self.new settings.now × Looked env self.old self.new }
    {
        for s in settings {
            self.value_of(*s, k, history);
        }
    }
}
