// Lengths and form of the tables: refusals 1 and 2. Tests are joined by `&`, with no branch between them.
ghost use Rattle.std.specs.Prelude.{◌≡◌, ◌≤◌};
ghost use Rattle.model.specs.Form.{unused_fits, lengths_fit};
ghost use Rattle.model.specs.Refusals.{fault_of};
ghost use Rattle.model.specs.Answers.{number_in};
ghost use Rattle.tables.specs.Lent.{shown};

use crate::{Tables, held_count};
use form_lists::lists_fit;
use form_places::{heads_fit, none_below, order_fits, programs_fit};
use model::Refusal;
use zeros::rest_zero;

// Whether the tables have the lengths of capacity n, from 1 to 4,096: not refusal 1.
pub fn lengths_fit(n: usize, tables: &Tables) -> bool
    ensures { result ≡ lengths_fit n (shown tables.now) }
{
    if !((1 <= n) & (n <= 4096)) {
        return false;
    }
    let slots = 32 * n;
    (tables.held.len() == 1)
        & (tables.timestamps.len() == n)
        & (tables.order.len() == n)
        & (tables.status.len() == n)
        & (tables.withdrawn.len() == n)
        & (tables.lengths.len() == n)
        & (tables.programs.len() == 256 * n)
        & (tables.reads.len() == n)
        & (tables.writes.len() == n)
        & (tables.sources.len() == slots)
        & (tables.seen.len() == slots)
        & (tables.targets.len() == slots)
        & (tables.written.len() == slots)
        & (tables.view.len() == 1024)
        & (tables.versions.len() == n)
        & (tables.cutoff.len() == 1)
        & (tables.kept.len() == 1024)
}

// Whether the slots of places from count on are 0.
fn unused_fits(count: usize, tables: &Tables) -> bool
    requires { count ≤ 4096 }
    ensures { result ≡ unused_fits (shown tables.now) count }
{
    let bytes = 256 * count;
    let slots = 32 * count;
    rest_zero(tables.timestamps, count)
        & rest_zero(tables.order, count)
        & rest_zero(tables.status, count)
        & rest_zero(tables.withdrawn, count)
        & rest_zero(tables.lengths, count)
        & rest_zero(tables.programs, bytes)
        & rest_zero(tables.reads, count)
        & rest_zero(tables.writes, count)
        & rest_zero(tables.sources, slots)
        & rest_zero(tables.seen, slots)
        & rest_zero(tables.targets, slots)
        & rest_zero(tables.written, slots)
        & rest_zero(tables.versions, count)
}

// Refusal 1 or 2, where one applies.
#[tactic(auto, using(crate::proofs::Checks::sized))]
pub fn fault(n: usize, tables: &Tables) -> Result<(), Refusal>
    ensures { number_in result ≡ fault_of n (shown tables.now) }
{
    if !lengths_fit(n, tables) {
        return Err(Refusal::WrongLengths);
    }
    let count = held_count(tables.held);
    if n < count {
        return Err(Refusal::NotInForm);
    }
    let last = tables.cutoff[0];
    let fits = heads_fit(
        count,
        tables.timestamps,
        tables.status,
        tables.withdrawn,
        tables.reads,
        tables.writes,
        tables.versions,
    ) & order_fits(count, tables.order, tables.timestamps)
        & programs_fit(count, tables.lengths, tables.programs)
        & lists_fit(count, tables.reads, tables.sources, tables.seen)
        & lists_fit(count, tables.writes, tables.targets, tables.written)
        & unused_fits(count, tables)
        & (last < 18446744073709551615)
        & none_below(count, last, tables.timestamps);
    if fits {
        Ok(())
    } else {
        Err(Refusal::NotInForm)
    }
}
