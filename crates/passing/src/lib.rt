// A drain's pass up the order list, on tables in form.
#![tactic(auto)]

ghost use Rattle.std.specs.Prelude.{◌≡◌, ◌≤◌, replicate};
ghost use Rattle.model.specs.Drain.{total_count};
ghost use Rattle.model.specs.Tables.{Tables, with_turn};
ghost use Rattle.model.specs.Calls.{reply};
ghost use Rattle.turns.specs.Turns.{with_lent, WithSome, Going};
ghost use Rattle.passing.specs.Drained.{drained};

use drain_steps::pass_at;
use totals::count_turn;
use uses::SettingUses;
use values::KnownValues;

// The pass from the position of the first turn on, each turn counted in totals that are 0 before.
pub fn pass_from(
    first: usize,
    count: usize,
    timestamps: &[u64],
    order: &[u16],
    status: &mut [u16],
    withdrawn: &[u16],
    lengths: &[u16],
    programs: &[u8],
    reads: &mut [u16],
    writes: &mut [u16],
    sources: &mut [u16],
    seen: &mut [i32],
    targets: &mut [u16],
    written: &mut [i32],
    view: &mut [i32],
    versions: &[u16],
    kept: &[i32],
    values: &mut KnownValues,
    uses: &mut SettingUses,
    totals: &mut [u16],
)
    requires { (first ≤ count)
        × WithSome (λ T. Going first
        (with_lent T count timestamps.now order.now status.old withdrawn.now lengths.now programs.now reads.old
        writes.old sources.old seen.old targets.old written.old view.old versions.now kept.now)
        values.old uses.old)
        × (totals.old ≡ replicate total_count 0) }
    ensures { (T : Tables) →
        let L =
        with_lent T count timestamps.now order.now status.old withdrawn.now
        lengths.now programs.now reads.old writes.old sources.old
        seen.old targets.old written.old view.old versions.now kept.now in
        Going first L values.old uses.old →
        reply totals.new
        (with_turn L status.new reads.new writes.new sources.new seen.new
        targets.new written.new view.new)
        ≡ drained L }
{
    for k in first..count {
        let answer = pass_at(
            k, count, timestamps, order, status, withdrawn, lengths, programs, reads, writes,
            sources, seen, targets, written, view, versions, kept, values, uses,
        );
        count_turn(Ok(answer), totals);
    }
}
