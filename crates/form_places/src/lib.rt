// The tests of the held places: their heads, their order and their programs. Tests are joined by `&`, with no branch between them.
#![tactic(auto)]

ghost use Rattle.std.specs.Prelude.{◌≡◌, [], ◌∷◌, ◌+◌, ◌*◌, ◌<◌, ◌≤◌, length, get_or};
ghost use Rattle.general.specs.Lists.{all_below};
ghost use Rattle.model.specs.Form.{head_fits, program_fits, order_fits, from_cutoff};

use bytecode::form::well_formed;
use timestamps::is_timestamp;
use zeros::all_zero;

// Whether a place's timestamp, status, flag, counts and version are right: a New change's lists are empty.
fn head_fits(
    timestamp: u64,
    status: u16,
    withdrawn: u16,
    reads: u16,
    writes: u16,
    version: u16,
) -> bool
    ensures { result ≡ head_fits (timestamp ∷ []) (status ∷ []) (withdrawn ∷ []) (reads ∷ []) (writes ∷ []) (version ∷ []) 0 }
{
    is_timestamp(timestamp)
        & (status <= 2)
        & (withdrawn <= 1)
        & ((status != 0) | ((reads == 0) & (writes == 0)))
        & (version <= 1)
}

// Whether the heads of the first count places are right.
pub fn heads_fit(
    count: usize,
    timestamps: &[u64],
    status: &[u16],
    withdrawn: &[u16],
    reads: &[u16],
    writes: &[u16],
    versions: &[u16],
) -> bool
    requires { (count ≤ length timestamps.now) × (count ≤ length status.now) × (count ≤ length withdrawn.now)
        × (count ≤ length reads.now) × (count ≤ length writes.now) × (count ≤ length versions.now) }
    ensures { result
        ≡ all_below count
        (head_fits timestamps.now status.now withdrawn.now reads.now writes.now
        versions.now) }
{
    let mut fits = true;
    for i in 0..count {
        fits &= head_fits(
            timestamps[i],
            status[i],
            withdrawn[i],
            reads[i],
            writes[i],
            versions[i],
        );
    }
    fits
}

// The timestamp of a place, or 0 past the last.
fn timestamp_at(timestamps: &[u64], place: usize) -> u64
    ensures { result ≡ get_or timestamps.now place 0 }
{
    timestamps.get(place).copied().unwrap_or(0)
}

// Whether the first count entries of the order list are places below count, by rising timestamp.
pub fn order_fits(count: usize, order: &[u16], timestamps: &[u64]) -> bool
    requires { count ≤ length order.now }
    ensures { result ≡ all_below count (order_fits order.now timestamps.now count) }
{
    let mut fits = true;
    let mut last: u64 = 0;
    for (k, place) in order[..count].iter().enumerate() {
        let place = *place as usize;
        let timestamp = timestamp_at(timestamps, place);
        fits &= (place < count) & ((k == 0) | (last < timestamp));
        last = timestamp;
    }
    fits
}

// Whether none of the first count places has a timestamp below the cutoff.
pub fn none_below(count: usize, cutoff: u64, timestamps: &[u64]) -> bool
    requires { count ≤ length timestamps.now }
    ensures { result ≡ all_below count (from_cutoff cutoff timestamps.now) }
{
    let mut fits = true;
    for timestamp in &timestamps[..count] {
        fits &= cutoff <= *timestamp;
    }
    fits
}

// Whether the program of a place has at most 32 instructions, well formed, with zeros behind them.
fn program_fits(i: usize, lengths: &[u16], programs: &[u8]) -> bool
    requires { (i < length lengths.now) × (256 * i + 256 ≤ length programs.now) }
    ensures { result ≡ program_fits lengths.now programs.now i }
{
    let length = lengths[i] as usize;
    if 32 < length {
        return false;
    }
    let start = 256 * i;
    let used = start + 8 * length;
    let end = start + 256;
    well_formed(&programs[start..used]) & all_zero(&programs[used..end])
}

// Whether the first count programs are well formed, with zeros behind them.
pub fn programs_fit(count: usize, lengths: &[u16], programs: &[u8]) -> bool
    requires { (count ≤ 4096) × (count ≤ length lengths.now) × (256 * count ≤ length programs.now) }
    ensures { result ≡ all_below count (program_fits lengths.now programs.now) }
{
    for i in 0..count {
        if !program_fits(i, lengths, programs) {
            return false;
        }
    }
    true
}
