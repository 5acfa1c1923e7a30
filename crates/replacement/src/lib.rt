// A change's lists replaced, with all that follows from it, in Figure 1's order: later readers marked, the view, the read list, the write list.
#![tactic(auto)]

ghost use Rattle.std.specs.Prelude.{◌≡◌};
ghost use Rattle.acts.specs.declared.Act.TheVariants as variant;
ghost use Rattle.uses.specs.Columns.{columns};
ghost use Rattle.replacement.specs.Replaced.{Replaceable, Replaced};

use acts::Act;
use execution::new_lists;
use propagation::propagate;
use run_record::{Lists, Run};
use storing::put_lists;
use uses::{Columns, SettingUses};
use values::{History, KnownValues};

// The lists of the change at position k replaced by those that it has now: none where it is cleared, else those of its run by the rules of its version. Answers the run.
pub fn replace(
    act: Act,
    version: u16,
    k: usize,
    order: &[u16],
    status: &mut [u16],
    lengths: &[u16],
    programs: &[u8],
    reads: &mut [u16],
    writes: &mut [u16],
    sources: &mut [u16],
    seen: &mut [i32],
    targets: &mut [u16],
    written: &mut [i32],
    view: &mut [i32],
    kept: &[i32],
    values: &mut KnownValues,
    uses: &mut SettingUses,
) -> Run
    requires { let C = columns order.now reads.old sources.old writes.old targets.old in
        (act ≡ variant.Stand → ⊥)
        × Replaceable k C seen.old written.old kept.now lengths.now programs.now status.old view.old values.old uses.old }
    ensures { let C = columns order.now reads.old sources.old writes.old targets.old in
        let C' = columns order.now reads.new sources.new writes.new targets.new in
        Replaced act version result k C seen.old written.old kept.now lengths.now programs.now status.old view.old uses.old
        status.new C' seen.new written.new view.new uses.new values.new }
{
    let mut lists = Lists::new();
    let history = History {
        order,
        writes,
        targets,
        written,
        kept,
    };
    let run = new_lists(
        act, version, k, lengths, programs, &history, values, &mut lists,
    );
    let new_targets: &[u16] = &lists.targets;
    let new_written: &[i32] = &lists.written;
    let columns = Columns {
        order,
        reads,
        sources,
        writes,
        targets,
    };
    propagate(
        k,
        &new_targets[..run.writes],
        &new_written[..run.writes],
        &columns,
        written,
        kept,
        status,
        view,
        values,
        uses,
    );
    let place = order[k] as usize;
    put_lists(
        place,
        run.reads,
        run.writes,
        &lists.sources,
        &lists.seen,
        new_targets,
        new_written,
        reads,
        writes,
        sources,
        seen,
        targets,
        written,
    );
    run
}
