// A drain's step on tables in form: the change at a position is passed over or has its turn.
#![tactic(auto)]

ghost use Rattle.std.specs.Prelude.{◌+◌, ◌<◌};
ghost use Rattle.model.specs.Answers.{as_turn};
ghost use Rattle.model.specs.Tables.{Tables, with_turn};
ghost use Rattle.turns.specs.Turns.{with_lent, WithSome, Going};
ghost use Rattle.drain_steps.specs.Passed.{Passed};

use carrying::carry_place;
use model::Turn;
use turns::turn_at;
use uses::SettingUses;
use values::{History, KnownValues};

// A drain's step: the change at position k is passed over where it is Valid, and has its turn where it is not.
pub fn pass_at(
    k: usize,
    count: usize,
    timestamps: &[u64],
    order: &[u16],
    status: &mut [u16],
    withdrawn: &[u16],
    lengths: &[u16],
    programs: &[u8],
    reads: &mut [u16],
    writes: &mut [u16],
    sources: &mut [u16],
    seen: &mut [i32],
    targets: &mut [u16],
    written: &mut [i32],
    view: &mut [i32],
    versions: &[u16],
    kept: &[i32],
    values: &mut KnownValues,
    uses: &mut SettingUses,
) -> Turn
    requires { (k < count)
        × WithSome (λ T. Going k
        (with_lent T count timestamps.now order.now status.old withdrawn.now lengths.now programs.now reads.old
        writes.old sources.old seen.old targets.old written.old view.old versions.now kept.now)
        values.old uses.old) }
    ensures { (T : Tables) →
        let L =
        with_lent T count timestamps.now order.now status.old withdrawn.now
        lengths.now programs.now reads.old writes.old sources.old
        seen.old targets.old written.old view.old versions.now kept.now in
        let U =
        with_turn L status.new reads.new writes.new sources.new seen.new
        targets.new written.new view.new in
        Going k L values.old uses.old →
        Passed (as_turn result) L U
        × Going (k + 1) U values.new uses.new }
{
    let place = order[k] as usize;
    let valid = status[place] == 1;
    if valid {
        let history = History {
            order,
            writes,
            targets,
            written,
            kept,
        };
        carry_place(place, &history, values);
        return Turn::Idle;
    }
    turn_at(
        true, k, count, timestamps, order, status, withdrawn, lengths, programs, reads, writes,
        sources, seen, targets, written, view, versions, kept, values, uses,
    )
}
