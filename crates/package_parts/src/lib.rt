// The parts of a package, each put into a lent slice: the entries of the changes, those of the withdrawals, the bodies; and the sums that their lengths come from.
#![tactic(auto)]

ghost use Rattle.std.specs.Prelude.{◌≡◌, ◌+◌, ◌*◌, ◌≤◌, length};
ghost use Rattle.text.specs.Pieces.{Put, pieces_below};
ghost use Rattle.search.specs.Searches.{PlacesWithin};
ghost use Rattle.package_parts.specs.Parts.{AtMost, total_of, change_entry, withdrawal_entry, body_in};

use package_entries::{put_entry, put_withdrawal};
use text::put;

// The sum of a column over the places of the first count changes of the order list.
pub fn total(count: usize, order: &[u16], column: &[u16]) -> usize
    requires { (count ≤ 4096) × PlacesWithin count order.now (length column.now) }
    ensures { result ≡ total_of order.now column.now count }
{
    let mut sum = 0;
    for place in &order[..count] {
        sum += usize::from(column[usize::from(*place)]);
    }
    sum
}

// The entries of the first count changes of the order list.
pub fn put_changes(
    count: usize,
    order: &[u16],
    timestamps: &[u64],
    lengths: &[u16],
    versions: &[u16],
    bytes: &mut [u8],
    at: usize,
) -> usize
    requires { PlacesWithin count order.now (length timestamps.now) × (length lengths.now ≡ length timestamps.now)
        × AtMost 32 lengths.now × (length versions.now ≡ length timestamps.now) × AtMost 1 versions.now
        × (at + 12 * count ≤ length bytes.old) }
    ensures { Put at
        (pieces_below count
        (change_entry order.now timestamps.now lengths.now versions.now))
        bytes.old bytes.new result }
{
    let mut end = at;
    for place in &order[..count] {
        let place = usize::from(*place);
        end = put_entry(
            timestamps[place],
            0,
            lengths[place] as u8,
            versions[place] as u8,
            bytes,
            end,
        );
    }
    end
}

// The entries of the withdrawals of the first count changes of the order list.
pub fn put_withdrawals(
    count: usize,
    order: &[u16],
    timestamps: &[u64],
    withdrawn: &[u16],
    bytes: &mut [u8],
    at: usize,
) -> usize
    requires { PlacesWithin count order.now (length timestamps.now) × (length withdrawn.now ≡ length timestamps.now)
        × AtMost 1 withdrawn.now × (at + 12 * total_of order.now withdrawn.now count ≤ length bytes.old) }
    ensures { Put at (pieces_below count (withdrawal_entry order.now timestamps.now withdrawn.now))
        bytes.old bytes.new result }
{
    let mut end = at;
    for place in &order[..count] {
        let place = usize::from(*place);
        end = put_withdrawal(withdrawn[place], timestamps[place], bytes, end);
    }
    end
}

// The bodies of the first count changes of the order list.
pub fn put_bodies(
    count: usize,
    order: &[u16],
    lengths: &[u16],
    programs: &[u8],
    bytes: &mut [u8],
    at: usize,
) -> usize
    requires { PlacesWithin count order.now (length lengths.now) × (length programs.now ≡ 256 * length lengths.now)
        × AtMost 32 lengths.now × (at + 8 * total_of order.now lengths.now count ≤ length bytes.old) }
    ensures { Put at (pieces_below count (body_in order.now lengths.now programs.now))
        bytes.old bytes.new result }
{
    let mut end = at;
    for place in &order[..count] {
        let place = usize::from(*place);
        let first = 256 * place;
        let last = first + 8 * usize::from(lengths[place]);
        end = put(&programs[first..last], bytes, end);
    }
    end
}
