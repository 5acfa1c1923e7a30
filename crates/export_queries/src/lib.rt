// The calls that alter no table for programs in other languages, as a static library. Each answer is one number.
#![tactic(auto)]

ghost use Rattle.std.specs.Prelude.{◌≡◌};
ghost use Rattle.model.specs.Tables.{tables};
ghost use Rattle.model.specs.Calls.{value_given, standing_given, current_value, value_as_of, standing, plain_run, start_values, package_out};
ghost use Rattle.answer_numbers.specs.Numbers.{value_number, standing_number, numbered, plain_numbers, packed_numbers};

use answer_numbers::{done_number, packed_number, standing_number, value_number};
use package_out::package_out;
use queries::{current_value, plain_run, standing, start_values, value_as_of};
use tables::Tables;

// The current value of a setting, or its refusal, as a number.
#[unsafe(no_mangle)]
pub extern "C" fn tolbezun_current_value(
    n: usize,
    held: &[u16],
    timestamps: &[u64],
    order: &[u16],
    status: &[u16],
    withdrawn: &[u16],
    lengths: &[u16],
    programs: &[u8],
    reads: &[u16],
    writes: &[u16],
    sources: &[u16],
    seen: &[i32],
    targets: &[u16],
    written: &[i32],
    view: &[i32],
    versions: &[u16],
    cutoff: &[u64],
    kept: &[i32],
    setting: usize,
) -> i64
    ensures { let T =
        tables held.now timestamps.now order.now status.now withdrawn.now
        lengths.now programs.now reads.now writes.now sources.now
        seen.now targets.now written.now view.now versions.now cutoff.now kept.now in
        result ≡ value_number (value_given (current_value n T setting)) }
{
    value_number(current_value(
        n,
        &Tables {
            held,
            timestamps,
            order,
            status,
            withdrawn,
            lengths,
            programs,
            reads,
            writes,
            sources,
            seen,
            targets,
            written,
            view,
            versions,
            cutoff,
            kept,
        },
        setting,
    ))
}

// The value of a setting as of a timestamp, or its refusal, as a number.
#[unsafe(no_mangle)]
pub extern "C" fn tolbezun_value_as_of(
    n: usize,
    held: &[u16],
    timestamps: &[u64],
    order: &[u16],
    status: &[u16],
    withdrawn: &[u16],
    lengths: &[u16],
    programs: &[u8],
    reads: &[u16],
    writes: &[u16],
    sources: &[u16],
    seen: &[i32],
    targets: &[u16],
    written: &[i32],
    view: &[i32],
    versions: &[u16],
    cutoff: &[u64],
    kept: &[i32],
    timestamp: u64,
    setting: usize,
) -> i64
    ensures { let T =
        tables held.now timestamps.now order.now status.now withdrawn.now
        lengths.now programs.now reads.now writes.now sources.now
        seen.now targets.now written.now view.now versions.now cutoff.now kept.now in
        result ≡ value_number (value_given (value_as_of n T timestamp setting)) }
{
    value_number(value_as_of(
        n,
        &Tables {
            held,
            timestamps,
            order,
            status,
            withdrawn,
            lengths,
            programs,
            reads,
            writes,
            sources,
            seen,
            targets,
            written,
            view,
            versions,
            cutoff,
            kept,
        },
        timestamp,
        setting,
    ))
}

// The standing of a timestamp, or its refusal, as a number.
#[unsafe(no_mangle)]
pub extern "C" fn tolbezun_standing(
    n: usize,
    held: &[u16],
    timestamps: &[u64],
    order: &[u16],
    status: &[u16],
    withdrawn: &[u16],
    lengths: &[u16],
    programs: &[u8],
    reads: &[u16],
    writes: &[u16],
    sources: &[u16],
    seen: &[i32],
    targets: &[u16],
    written: &[i32],
    view: &[i32],
    versions: &[u16],
    cutoff: &[u64],
    kept: &[i32],
    timestamp: u64,
) -> u32
    ensures { let T =
        tables held.now timestamps.now order.now status.now withdrawn.now
        lengths.now programs.now reads.now writes.now sources.now
        seen.now targets.now written.now view.now versions.now cutoff.now kept.now in
        result ≡ standing_number (standing_given (standing n T timestamp)) }
{
    standing_number(standing(
        n,
        &Tables {
            held,
            timestamps,
            order,
            status,
            withdrawn,
            lengths,
            programs,
            reads,
            writes,
            sources,
            seen,
            targets,
            written,
            view,
            versions,
            cutoff,
            kept,
        },
        timestamp,
    ))
}

// The plain run: the number of its answer.
#[unsafe(no_mangle)]
pub extern "C" fn tolbezun_plain_run(
    n: usize,
    held: &[u16],
    timestamps: &[u64],
    order: &[u16],
    status: &[u16],
    withdrawn: &[u16],
    lengths: &[u16],
    programs: &[u8],
    reads: &[u16],
    writes: &[u16],
    sources: &[u16],
    seen: &[i32],
    targets: &[u16],
    written: &[i32],
    view: &[i32],
    versions: &[u16],
    cutoff: &[u64],
    kept: &[i32],
    settings: &mut [i32],
) -> u8
    ensures { let T =
        tables held.now timestamps.now order.now status.now withdrawn.now
        lengths.now programs.now reads.now writes.now sources.now
        seen.now targets.now written.now view.now versions.now cutoff.now kept.now in
        numbered result settings.new ≡ plain_numbers (plain_run n T settings.old) }
{
    done_number(plain_run(
        n,
        &Tables {
            held,
            timestamps,
            order,
            status,
            withdrawn,
            lengths,
            programs,
            reads,
            writes,
            sources,
            seen,
            targets,
            written,
            view,
            versions,
            cutoff,
            kept,
        },
        settings,
    ))
}

// Package out: the length of the package, or its refusal, as a number.
#[unsafe(no_mangle)]
pub extern "C" fn tolbezun_package_out(
    n: usize,
    held: &[u16],
    timestamps: &[u64],
    order: &[u16],
    status: &[u16],
    withdrawn: &[u16],
    lengths: &[u16],
    programs: &[u8],
    reads: &[u16],
    writes: &[u16],
    sources: &[u16],
    seen: &[i32],
    targets: &[u16],
    written: &[i32],
    view: &[i32],
    versions: &[u16],
    cutoff: &[u64],
    kept: &[i32],
    bytes: &mut [u8],
) -> u32
    ensures { let T =
        tables held.now timestamps.now order.now status.now withdrawn.now
        lengths.now programs.now reads.now writes.now sources.now
        seen.now targets.now written.now view.now versions.now cutoff.now kept.now in
        numbered result bytes.new ≡ packed_numbers (package_out n T bytes.old) }
{
    packed_number(package_out(
        n,
        &Tables {
            held,
            timestamps,
            order,
            status,
            withdrawn,
            lengths,
            programs,
            reads,
            writes,
            sources,
            seen,
            targets,
            written,
            view,
            versions,
            cutoff,
            kept,
        },
        bytes,
    ))
}

// The start values: the number of the answer.
#[unsafe(no_mangle)]
pub extern "C" fn tolbezun_start_values(settings: &mut [i32]) -> u8
    ensures { numbered result settings.new ≡ plain_numbers (start_values settings.old) }
{
    done_number(start_values(settings))
}
