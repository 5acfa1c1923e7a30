// Taking in a program, on tables in form.
#![tactic(auto)]

ghost use Rattle.std.specs.Prelude.{◌≡◌, ◌+◌, ◌<◌, ◌≤◌, length};
ghost use Rattle.machine.specs.Instruction.{code};
ghost use Rattle.model.specs.Answers.{as_answer};
ghost use Rattle.model.specs.Package.{taking};
ghost use Rattle.tables.specs.Parts.{PartFormed, ItemAnswered};
ghost use Rattle.taking.specs.Taking.{with_lent, entered, copied};

use item_tests::{compare, refusal_of};
use model::{Outcome, Refusal};
use search::{rank, stamped_at};
use tables::held_count;

// The next place, of number count, entered into the order list at a position of its first count entries; those from there on move up by one.
fn enter_next(position: usize, count: usize, order: &mut [u16])
    requires { (position ≤ count) × (count < length order.old) × (length order.old ≤ 4096) }
    ensures { order.new ≡ entered count position order.old }
{
    order.copy_within(position..count, position + 1);
    order[position] = count as u16;
}

// Bytes copied into a slice from a slot on. One by one: `copy_from_slice` would need `memmove` from outside.
fn copy_in(source: &[u8], at: usize, destination: &mut [u8])
    requires { at + length source.now ≤ length destination.old }
    ensures { destination.new ≡ copied source.now at destination.old }
{
    for (i, byte) in source.iter().enumerate() {
        destination[at + i] = *byte;
    }
}

// A program taken in, on tables in form: stored at the next place, New, not withdrawn, its lists empty, as unused slots are already.
pub fn take_item(
    held: &mut [u16],
    timestamps: &mut [u64],
    order: &mut [u16],
    lengths: &mut [u16],
    programs: &mut [u8],
    versions: &mut [u16],
    cutoff: &[u64],
    timestamp: u64,
    version: u16,
    program: &[u8],
) -> Result<Outcome, Refusal>
    requires { PartFormed (λ T. with_lent T held.old timestamps.old order.old lengths.old programs.old versions.old cutoff.now) }
    ensures { ItemAnswered
        (λ T. with_lent T held.old timestamps.old order.old lengths.old programs.old versions.old cutoff.now)
        (λ T. with_lent T held.new timestamps.new order.new lengths.new programs.new versions.new cutoff.now)
        (taking timestamp (code version program.now)) (as_answer result) }
{
    refusal_of(cutoff[0], timestamp, version, program)?;
    let count = held_count(held);
    let position = rank(timestamp, count, order, timestamps);
    if stamped_at(timestamp, position, count, order, timestamps) {
        let place = order[position] as usize;
        return compare(place, lengths, programs, versions, version, program);
    }
    if count == timestamps.len() {
        return Err(Refusal::Full);
    }
    timestamps[count] = timestamp;
    enter_next(position, count, order);
    lengths[count] = (program.len() / 8) as u16;
    versions[count] = version;
    copy_in(program, 256 * count, programs);
    held[0] = (count + 1) as u16;
    Ok(Outcome::Done)
}
