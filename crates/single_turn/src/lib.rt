// A single turn on tables in form.
#![tactic(auto)]

ghost use Rattle.std.specs.Prelude.{◌≡◌, length};
ghost use Rattle.model.specs.Tables.{Tables, with_turn};
ghost use Rattle.model.specs.Answers.{as_turn};
ghost use Rattle.model.specs.Calls.{reply};
ghost use Rattle.model.specs.Form.{Formed};
ghost use Rattle.turns.specs.Turns.{turned, with_lent, WithSome};

use model::Turn;
use search::waiting;
use turns::turn_at;
use uses::SettingUses;
use values::KnownValues;

// One turn: idle, or that of the lowest stamped change that is New or Invalid.
pub fn turn_once(
    count: usize,
    timestamps: &[u64],
    order: &[u16],
    status: &mut [u16],
    withdrawn: &[u16],
    lengths: &[u16],
    programs: &[u8],
    reads: &mut [u16],
    writes: &mut [u16],
    sources: &mut [u16],
    seen: &mut [i32],
    targets: &mut [u16],
    written: &mut [i32],
    view: &mut [i32],
    versions: &[u16],
    kept: &[i32],
) -> Turn
    requires { WithSome (λ T. Formed (length order.now)
        (with_lent T count timestamps.now order.now status.old withdrawn.now lengths.now programs.now reads.old
        writes.old sources.old seen.old targets.old written.old view.old versions.now kept.now)) }
    ensures { (T : Tables) →
        let L =
        with_lent T count timestamps.now order.now status.old withdrawn.now
        lengths.now programs.now reads.old writes.old sources.old
        seen.old targets.old written.old view.old versions.now kept.now in
        Formed (length order.now) L →
        reply (as_turn result)
        (with_turn L status.new reads.new writes.new sources.new seen.new
        targets.new written.new view.new)
        ≡ turned L }
{
    match waiting(count, order, status) {
        Some(k) => {
            let mut values = KnownValues::none();
            let mut uses = SettingUses::none();
            turn_at(
                false,
                k,
                count,
                timestamps,
                order,
                status,
                withdrawn,
                lengths,
                programs,
                reads,
                writes,
                sources,
                seen,
                targets,
                written,
                view,
                versions,
                kept,
                &mut values,
                &mut uses,
            )
        }
        None => Turn::Idle,
    }
}
