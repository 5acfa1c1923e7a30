// The package of the held changes put into a lent slice, or refusal 12.
#![tactic(auto)]

ghost use Rattle.std.specs.Prelude.{◌≡◌};
ghost use Rattle.model.specs.Answers.{as_packed};
ghost use Rattle.model.specs.Calls.{packed_reply};
ghost use Rattle.packing.specs.Packing.{packed_in};
ghost use Rattle.packing.specs.Lent.{HeldParts};

use model::Refusal;
use package_entries::put_little_endian;
use package_parts::{put_bodies, put_changes, put_withdrawals, total};

// The package of the first count changes of the order list, and its length; refusal 12 where it would have more than 512 entries or 65,535 bytes, or does not fit into the slice.
pub fn put_package(
    count: usize,
    order: &[u16],
    timestamps: &[u64],
    withdrawn: &[u16],
    lengths: &[u16],
    programs: &[u8],
    versions: &[u16],
    bytes: &mut [u8],
) -> Result<u16, Refusal>
    requires { HeldParts count order.now timestamps.now withdrawn.now lengths.now programs.now versions.now }
    ensures { packed_reply (as_packed result) bytes.new
        ≡ packed_in order.now timestamps.now withdrawn.now lengths.now
        programs.now versions.now count bytes.old }
{
    let entries = count + total(count, order, withdrawn);
    let size = 2 + 12 * entries + 8 * total(count, order, lengths);
    let room = bytes.len();
    if !((entries <= 512) & (size <= 65535) & (size <= room)) {
        return Err(Refusal::NoRoom);
    }
    let mut end = put_little_endian(entries as u64, 2, bytes, 0);
    end = put_changes(count, order, timestamps, lengths, versions, bytes, end);
    end = put_withdrawals(count, order, timestamps, withdrawn, bytes, end);
    end = put_bodies(count, order, lengths, programs, bytes, end);
    Ok(end as u16)
}
