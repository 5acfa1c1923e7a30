// The turn, on tables in form, of the change at a position of the order list: for a single turn and for a drain.
#![tactic(auto)]

ghost use Rattle.std.specs.Prelude.{◌≡◌, true, ◌+◌};
ghost use Rattle.model.specs.Tables.{Tables, with_turn};
ghost use Rattle.model.specs.Answers.{as_turn};
ghost use Rattle.model.specs.Calls.{reply};
ghost use Rattle.turns.specs.Turns.{turned, with_lent, WithSome, Going, Turnable};

use acts::{Act, decide};
use carrying::carry_place;
use model::Turn;
use replacement::replace;
use turn_answers::answer_of;
use uses::{Columns, SettingUses};
use values::{History, KnownValues};

// The turn of the change at position k, with the values as of it that are known. What is noted of the settings serves a drain; a single turn has nothing noted.
pub fn turn_at(
    noted: bool,
    k: usize,
    count: usize,
    timestamps: &[u64],
    order: &[u16],
    status: &mut [u16],
    withdrawn: &[u16],
    lengths: &[u16],
    programs: &[u8],
    reads: &mut [u16],
    writes: &mut [u16],
    sources: &mut [u16],
    seen: &mut [i32],
    targets: &mut [u16],
    written: &mut [i32],
    view: &mut [i32],
    versions: &[u16],
    kept: &[i32],
    values: &mut KnownValues,
    uses: &mut SettingUses,
) -> Turn
    requires { WithSome (λ T. Turnable noted k
        (with_lent T count timestamps.now order.now status.old withdrawn.now lengths.now programs.now reads.old
        writes.old sources.old seen.old targets.old written.old view.old versions.now kept.now)
        values.old uses.old) }
    ensures { (T : Tables) →
        let L =
        with_lent T count timestamps.now order.now status.old withdrawn.now
        lengths.now programs.now reads.old writes.old sources.old
        seen.old targets.old written.old view.old versions.now kept.now in
        let U =
        with_turn L status.new reads.new writes.new sources.new seen.new
        targets.new written.new view.new in
        Turnable noted k L values.old uses.old →
        (reply (as_turn result) U ≡ turned L)
        × (noted ≡ true → Going (k + 1) U values.new uses.new) }
{
    let place = order[k] as usize;
    let timestamp = timestamps[place];
    let version = versions[place];
    let history = History {
        order,
        writes,
        targets,
        written,
        kept,
    };
    let act = decide(k, &history, status, withdrawn, reads, sources, seen, values);
    let stands = act == Act::Stand;
    if stands {
        carry_place(place, &history, values);
        status[place] = 1;
        return Turn::Stood(timestamp);
    }
    let columns = Columns {
        order,
        reads,
        sources,
        writes,
        targets,
    };
    uses.note(noted, k + 1, count, &columns, status);
    let run = replace(
        act, version, k, order, status, lengths, programs, reads, writes, sources, seen, targets,
        written, view, kept, values, uses,
    );
    status[place] = 1;
    answer_of(act, run, timestamp)
}
