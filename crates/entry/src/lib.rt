// One entry of a package, carried out on tables in form.
#![tactic(auto)]

ghost use Rattle.model.specs.Answers.{as_answer};
ghost use Rattle.model.specs.Package.{item_at};
ghost use Rattle.tables.specs.Parts.{ItemAnswered};
ghost use Rattle.entry.specs.Entry.{with_lent, EntryReady};

use model::{Outcome, Refusal};
use packages::{count_at, kind_at, timestamp_at, version_at};
use taking::take_item;
use withdrawing::withdraw_item;

// Entry j of a package carried out, on tables in form. Its body begins at `body`.
pub fn take_entry(
    held: &mut [u16],
    timestamps: &mut [u64],
    order: &mut [u16],
    status: &mut [u16],
    withdrawn: &mut [u16],
    lengths: &mut [u16],
    programs: &mut [u8],
    versions: &mut [u16],
    cutoff: &[u64],
    bytes: &[u8],
    j: usize,
    body: usize,
) -> Result<Outcome, Refusal>
    requires { EntryReady bytes.now j body
        (λ T. with_lent T held.old timestamps.old order.old status.old withdrawn.old lengths.old programs.old versions.old cutoff.now) }
    ensures { ItemAnswered
        (λ T.
        with_lent T held.old timestamps.old order.old status.old
        withdrawn.old lengths.old programs.old versions.old cutoff.now)
        (λ T.
        with_lent T held.new timestamps.new order.new status.new
        withdrawn.new lengths.new programs.new versions.new cutoff.now)
        (item_at bytes.now j) (as_answer result) }
{
    let t = timestamp_at(bytes, j);
    if kind_at(bytes, j) == 0 {
        let end = body + 8 * count_at(bytes, j);
        return take_item(
            held,
            timestamps,
            order,
            lengths,
            programs,
            versions,
            cutoff,
            t,
            version_at(bytes, j),
            &bytes[body..end],
        );
    }
    withdraw_item(held, timestamps, order, status, withdrawn, cutoff, t)?;
    Ok(Outcome::Done)
}
