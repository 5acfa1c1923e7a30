// Take in, withdraw and take in a package for programs in other languages, as a static library. Each answer is one number.
#![tactic(auto)]

ghost use Rattle.std.specs.Prelude.{◌≡◌};
ghost use Rattle.machine.specs.Instruction.{code};
ghost use Rattle.model.specs.Tables.{tables, with_taking, with_withdrawing, with_package};
ghost use Rattle.model.specs.Calls.{answer_number, reply, take_in, withdraw, take_in_package};
ghost use Rattle.answer_numbers.specs.Numbers.{answering, numbered, package_numbers};

use answer_numbers::{answer_number, done_number};
use intake::{take_in, take_in_package, withdraw};

// Taking in: the number of its answer.
#[unsafe(no_mangle)]
pub extern "C" fn tolbezun_take_in(
    n: usize,
    held: &mut [u16],
    timestamps: &mut [u64],
    order: &mut [u16],
    status: &[u16],
    withdrawn: &[u16],
    lengths: &mut [u16],
    programs: &mut [u8],
    reads: &[u16],
    writes: &[u16],
    sources: &[u16],
    seen: &[i32],
    targets: &[u16],
    written: &[i32],
    view: &[i32],
    versions: &mut [u16],
    cutoff: &[u64],
    kept: &[i32],
    timestamp: u64,
    version: u16,
    program: &[u8],
) -> u8
    ensures { let T =
        tables held.old timestamps.old order.old status.now withdrawn.now
        lengths.old programs.old reads.now writes.now sources.now
        seen.now targets.now written.now view.now versions.old cutoff.now kept.now in
        reply result
        (with_taking T held.new timestamps.new order.new lengths.new programs.new versions.new)
        ≡ answering answer_number (take_in n T timestamp (code version program.now)) }
{
    answer_number(take_in(
        n, held, timestamps, order, status, withdrawn, lengths, programs, reads, writes, sources,
        seen, targets, written, view, versions, cutoff, kept, timestamp, version, program,
    ))
}

// Withdrawing: the number of its answer.
#[unsafe(no_mangle)]
pub extern "C" fn tolbezun_withdraw(
    n: usize,
    held: &[u16],
    timestamps: &[u64],
    order: &[u16],
    status: &mut [u16],
    withdrawn: &mut [u16],
    lengths: &[u16],
    programs: &[u8],
    reads: &[u16],
    writes: &[u16],
    sources: &[u16],
    seen: &[i32],
    targets: &[u16],
    written: &[i32],
    view: &[i32],
    versions: &[u16],
    cutoff: &[u64],
    kept: &[i32],
    timestamp: u64,
) -> u8
    ensures { let T =
        tables held.now timestamps.now order.now status.old withdrawn.old
        lengths.now programs.now reads.now writes.now sources.now
        seen.now targets.now written.now view.now versions.now cutoff.now kept.now in
        reply result
        (with_withdrawing T status.new withdrawn.new)
        ≡ answering answer_number (withdraw n T timestamp) }
{
    done_number(withdraw(
        n, held, timestamps, order, status, withdrawn, lengths, programs, reads, writes, sources,
        seen, targets, written, view, versions, cutoff, kept, timestamp,
    ))
}

// Taking in a package: the number of its answer.
#[unsafe(no_mangle)]
pub extern "C" fn tolbezun_take_in_package(
    n: usize,
    held: &mut [u16],
    timestamps: &mut [u64],
    order: &mut [u16],
    status: &mut [u16],
    withdrawn: &mut [u16],
    lengths: &mut [u16],
    programs: &mut [u8],
    reads: &[u16],
    writes: &[u16],
    sources: &[u16],
    seen: &[i32],
    targets: &[u16],
    written: &[i32],
    view: &[i32],
    versions: &mut [u16],
    cutoff: &[u64],
    kept: &[i32],
    bytes: &[u8],
    answers: &mut [u8],
) -> u8
    ensures { let T =
        tables held.old timestamps.old order.old status.old withdrawn.old
        lengths.old programs.old reads.now writes.now sources.now
        seen.now targets.now written.now view.now versions.old cutoff.now kept.now in
        reply (numbered result answers.new)
        (with_package T held.new timestamps.new order.new status.new
        withdrawn.new lengths.new programs.new versions.new)
        ≡ package_numbers (take_in_package n T bytes.now answers.old) }
{
    done_number(take_in_package(
        n, held, timestamps, order, status, withdrawn, lengths, programs, reads, writes, sources,
        seen, targets, written, view, versions, cutoff, kept, bytes, answers,
    ))
}
