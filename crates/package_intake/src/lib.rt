// Taking in a package: the call.
#![tactic(auto)]

ghost use Rattle.std.specs.Prelude.{◌≡◌};
ghost use Rattle.model.specs.Answers.{as_done};
ghost use Rattle.model.specs.Tables.{tables, with_package};
ghost use Rattle.model.specs.Calls.{package_reply, take_in_package};

use entries::take_entries;
use model::Refusal;
use packages::layout_fits;
use tables::Tables;
use tables::form::fault;

// Taking in a package: each entry taken in or withdrawn, in order. Form is tested once.
pub fn take_in_package(
    n: usize,
    held: &mut [u16],
    timestamps: &mut [u64],
    order: &mut [u16],
    status: &mut [u16],
    withdrawn: &mut [u16],
    lengths: &mut [u16],
    programs: &mut [u8],
    reads: &[u16],
    writes: &[u16],
    sources: &[u16],
    seen: &[i32],
    targets: &[u16],
    written: &[i32],
    view: &[i32],
    versions: &mut [u16],
    cutoff: &[u64],
    kept: &[i32],
    bytes: &[u8],
    answers: &mut [u8],
) -> Result<(), Refusal>
    ensures { let T =
        tables held.old timestamps.old order.old status.old withdrawn.old
        lengths.old programs.old reads.now writes.now sources.now
        seen.now targets.now written.now view.now versions.old cutoff.now kept.now in
        package_reply (as_done result)
        (with_package T held.new timestamps.new order.new status.new
        withdrawn.new lengths.new programs.new versions.new)
        answers.new
        ≡ take_in_package n T bytes.now answers.old }
{
    if answers.len() != 512 {
        return Err(Refusal::WrongLengths);
    }
    fault(
        n,
        &Tables {
            held,
            timestamps,
            order,
            status,
            withdrawn,
            lengths,
            programs,
            reads,
            writes,
            sources,
            seen,
            targets,
            written,
            view,
            versions,
            cutoff,
            kept,
        },
    )?;
    let laid_out = layout_fits(bytes);
    if !laid_out {
        return Err(Refusal::NotLaidOut);
    }
    take_entries(
        held, timestamps, order, status, withdrawn, lengths, programs, versions, cutoff, bytes,
        answers,
    );
    Ok(())
}
