// A drain on tables in form: what its pass begins with, and the pass.
#![tactic(auto)]

ghost use Rattle.std.specs.Prelude.{◌≡◌, length, replicate};
ghost use Rattle.std.proofs.Math.Option.{some};
ghost use Rattle.model.specs.Drain.{total_count};
ghost use Rattle.model.specs.Tables.{Tables, with_turn};
ghost use Rattle.model.specs.Calls.{reply};
ghost use Rattle.model.specs.Form.{Formed};
ghost use Rattle.search.specs.Searches.{waiting_in};
ghost use Rattle.turns.specs.Turns.{with_lent, WithSome};
ghost use Rattle.passing.specs.Drained.{drained};

use carrying::carry_below;
use passing::pass_from;
use search::waiting;
use uses::{Columns, SettingUses};
use values::{History, KnownValues};

// The turns of a drain from its first on, which is that of the change at a position, each counted in totals that are 0 before. All values are known from the start, and how far each
// setting matters is noted once.
fn turn_from(
    first: usize,
    count: usize,
    timestamps: &[u64],
    order: &[u16],
    status: &mut [u16],
    withdrawn: &[u16],
    lengths: &[u16],
    programs: &[u8],
    reads: &mut [u16],
    writes: &mut [u16],
    sources: &mut [u16],
    seen: &mut [i32],
    targets: &mut [u16],
    written: &mut [i32],
    view: &mut [i32],
    versions: &[u16],
    kept: &[i32],
    totals: &mut [u16],
)
    requires { WithSome (λ T.
        let L =
        with_lent T count timestamps.now order.now status.old withdrawn.now lengths.now programs.now reads.old
        writes.old sources.old seen.old targets.old written.old view.old versions.now kept.now in
        Formed (length order.now) L × (waiting_in L ≡ some first))
        × (totals.old ≡ replicate total_count 0) }
    ensures { (T : Tables) →
        let L =
        with_lent T count timestamps.now order.now status.old withdrawn.now
        lengths.now programs.now reads.old writes.old sources.old
        seen.old targets.old written.old view.old versions.now kept.now in
        Formed (length order.now) L →
        reply totals.new
        (with_turn L status.new reads.new writes.new sources.new seen.new
        targets.new written.new view.new)
        ≡ drained L }
{
    let history = History {
        order,
        writes,
        targets,
        written,
        kept,
    };
    let columns = Columns {
        order,
        reads,
        sources,
        writes,
        targets,
    };
    let mut values = KnownValues::all(kept);
    carry_below(first, &history, &mut values);
    let mut uses = SettingUses::none();
    uses.note_last(first, count, &columns, status);
    pass_from(
        first,
        count,
        timestamps,
        order,
        status,
        withdrawn,
        lengths,
        programs,
        reads,
        writes,
        sources,
        seen,
        targets,
        written,
        view,
        versions,
        kept,
        &mut values,
        &mut uses,
        totals,
    )
}

// A drain, its turns counted in totals that are 0 before; none, where no change waits.
pub fn turn_all(
    count: usize,
    timestamps: &[u64],
    order: &[u16],
    status: &mut [u16],
    withdrawn: &[u16],
    lengths: &[u16],
    programs: &[u8],
    reads: &mut [u16],
    writes: &mut [u16],
    sources: &mut [u16],
    seen: &mut [i32],
    targets: &mut [u16],
    written: &mut [i32],
    view: &mut [i32],
    versions: &[u16],
    kept: &[i32],
    totals: &mut [u16],
)
    requires { WithSome (λ T. Formed (length order.now)
        (with_lent T count timestamps.now order.now status.old withdrawn.now lengths.now programs.now reads.old
        writes.old sources.old seen.old targets.old written.old view.old versions.now kept.now))
        × (totals.old ≡ replicate total_count 0) }
    ensures { (T : Tables) →
        let L =
        with_lent T count timestamps.now order.now status.old withdrawn.now
        lengths.now programs.now reads.old writes.old sources.old
        seen.old targets.old written.old view.old versions.now kept.now in
        Formed (length order.now) L →
        reply totals.new
        (with_turn L status.new reads.new writes.new sources.new seen.new
        targets.new written.new view.new)
        ≡ drained L }
{
    if let Some(first) = waiting(count, order, status) {
        turn_from(
            first, count, timestamps, order, status, withdrawn, lengths, programs, reads, writes,
            sources, seen, targets, written, view, versions, kept, totals,
        );
    }
}
