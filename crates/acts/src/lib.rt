// What a turn does with its change: cleared, stood or run.
#![tactic(auto)]

ghost use Rattle.std.specs.Prelude.{◌≡◌, length, get_or};
ghost use Rattle.model.specs.History.{all_hold};
ghost use Rattle.model.specs.Tables.{list_in};
ghost use Rattle.values.specs.Values.{lists_of, values_as_of, Lookable, Looked};
ghost use Rattle.acts.specs.Acts.{act_of, Decidable};

use values::{History, KnownValues};

// What a turn does with its change.
#[derive(Clone, Copy, PartialEq, Eq, Drop)]
pub enum Act {
    Clear,
    Stand,
    Run,
}

// What the turn of the change at a position does: withdrawn, it is cleared; Invalid with every value seen as of its timestamp, it stands; else it runs.
pub fn decide(
    k: usize,
    history: &History,
    status: &[u16],
    withdrawn: &[u16],
    reads: &[u16],
    sources: &[u16],
    seen: &[i32],
    values: &mut KnownValues,
) -> Act
    requires { let h = lists_of history.now in
        Decidable k h.order status.now withdrawn.now reads.now sources.now seen.now (length h.writes)
        × Lookable k h values.old }
    ensures { let h = lists_of history.now in
        let place = get_or h.order k 0 in
        let env = values_as_of h k in
        (result ≡ act_of (get_or withdrawn.now place 0) (get_or status.now place 0)
        (all_hold (list_in reads.now sources.now seen.now place) env))
        × Looked env values.old values.new }
{
    let place = history.order[k] as usize;
    if withdrawn[place] != 0 {
        return Act::Clear;
    }
    if status[place] != 2 {
        return Act::Run;
    }
    let begin = 32 * place;
    let end = begin + reads[place] as usize;
    if values.seen_hold(&sources[begin..end], &seen[begin..end], k, history) {
        return Act::Stand;
    }
    Act::Run
}
