// The call package out: the held changes and their withdrawals as one package, for a cabinet to be filled with.
#![tactic(auto)]

ghost use Rattle.std.specs.Prelude.{◌≡◌};
ghost use Rattle.model.specs.Answers.{as_packed};
ghost use Rattle.model.specs.Calls.{packed_reply, package_out};
ghost use Rattle.tables.specs.Lent.{shown};

use model::Refusal;
use packing::put_package;
use tables::form::fault;
use tables::{Tables, held_count};

// Writes the package into the lent bytes, of any number; those behind it keep their contents. The answer is its length.
pub fn package_out(n: usize, tables: &Tables, bytes: &mut [u8]) -> Result<u16, Refusal>
    ensures { packed_reply (as_packed result) bytes.new ≡ package_out n (shown tables.now) bytes.old }
{
    fault(n, tables)?;
    let count = held_count(tables.held);
    put_package(
        count,
        tables.order,
        tables.timestamps,
        tables.withdrawn,
        tables.lengths,
        tables.programs,
        tables.versions,
        bytes,
    )
}
