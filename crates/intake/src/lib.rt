// The calls take in, withdraw, and take in a package.
#![tactic(auto)]

ghost use Rattle.std.specs.Prelude.{◌≡◌};
ghost use Rattle.machine.specs.Instruction.{code};
ghost use Rattle.model.specs.Answers.{as_answer, as_done};
ghost use Rattle.model.specs.Tables.{tables, with_taking, with_withdrawing};
ghost use Rattle.model.specs.Calls.{reply, take_in, withdraw};

use model::{Outcome, Refusal};
pub use package_intake::take_in_package;
use tables::Tables;
use tables::form::fault;
use taking::take_item;
use withdrawing::withdraw_item;

// Taking in: a program stored at the next place, New, not withdrawn, its lists empty.
pub fn take_in(
    n: usize,
    held: &mut [u16],
    timestamps: &mut [u64],
    order: &mut [u16],
    status: &[u16],
    withdrawn: &[u16],
    lengths: &mut [u16],
    programs: &mut [u8],
    reads: &[u16],
    writes: &[u16],
    sources: &[u16],
    seen: &[i32],
    targets: &[u16],
    written: &[i32],
    view: &[i32],
    versions: &mut [u16],
    cutoff: &[u64],
    kept: &[i32],
    timestamp: u64,
    version: u16,
    program: &[u8],
) -> Result<Outcome, Refusal>
    ensures { let T =
        tables held.old timestamps.old order.old status.now withdrawn.now
        lengths.old programs.old reads.now writes.now sources.now
        seen.now targets.now written.now view.now versions.old cutoff.now kept.now in
        reply (as_answer result) (with_taking T held.new timestamps.new order.new lengths.new programs.new versions.new)
        ≡ take_in n T timestamp (code version program.now) }
{
    fault(
        n,
        &Tables {
            held,
            timestamps,
            order,
            status,
            withdrawn,
            lengths,
            programs,
            reads,
            writes,
            sources,
            seen,
            targets,
            written,
            view,
            versions,
            cutoff,
            kept,
        },
    )?;
    take_item(
        held, timestamps, order, lengths, programs, versions, cutoff, timestamp, version, program,
    )
}

// Withdrawing: the flag of a held timestamp set, and Valid becomes Invalid.
pub fn withdraw(
    n: usize,
    held: &[u16],
    timestamps: &[u64],
    order: &[u16],
    status: &mut [u16],
    withdrawn: &mut [u16],
    lengths: &[u16],
    programs: &[u8],
    reads: &[u16],
    writes: &[u16],
    sources: &[u16],
    seen: &[i32],
    targets: &[u16],
    written: &[i32],
    view: &[i32],
    versions: &[u16],
    cutoff: &[u64],
    kept: &[i32],
    timestamp: u64,
) -> Result<(), Refusal>
    ensures { let T =
        tables held.now timestamps.now order.now status.old withdrawn.old
        lengths.now programs.now reads.now writes.now sources.now
        seen.now targets.now written.now view.now versions.now cutoff.now kept.now in
        reply (as_done result) (with_withdrawing T status.new withdrawn.new)
        ≡ withdraw n T timestamp }
{
    fault(
        n,
        &Tables {
            held,
            timestamps,
            order,
            status,
            withdrawn,
            lengths,
            programs,
            reads,
            writes,
            sources,
            seen,
            targets,
            written,
            view,
            versions,
            cutoff,
            kept,
        },
    )?;
    withdraw_item(
        held, timestamps, order, status, withdrawn, cutoff, timestamp,
    )
}
