// Numbers and entries of a package, put into a lent slice.
#![tactic(auto)]

ghost use Rattle.std.specs.Prelude.{◌+◌, ◌*◌, ◌≤◌, length};
ghost use Rattle.text.specs.Pieces.{Put};
ghost use Rattle.model.specs.Package.{number_bytes, entry_bytes};
ghost use Rattle.package_entries.specs.Entries.{withdrawal_bytes};

use text::put;

// A number put at `at` in size bytes, low byte first. The answer is where it ends.
pub fn put_little_endian(number: u64, size: usize, bytes: &mut [u8], at: usize) -> usize
    requires { at + size ≤ length bytes.old }
    ensures { Put at (number_bytes size number) bytes.old bytes.new result }
{
    let end = at + size;
    let part = &mut bytes[at..end];
    let mut rest = number;
    for byte in part.iter_mut() {
        *byte = (rest % 256) as u8;
        rest /= 256;
    }
    end
}

// An entry put at `at`: timestamp, kind, instruction count, version, a zero byte.
pub fn put_entry(
    timestamp: u64,
    kind: u8,
    count: u8,
    version: u8,
    bytes: &mut [u8],
    at: usize,
) -> usize
    requires { at + 12 ≤ length bytes.old }
    ensures { Put at (entry_bytes timestamp kind count version) bytes.old bytes.new result }
{
    let end = put_little_endian(timestamp, 8, bytes, at);
    put(&[kind, count, version, 0], bytes, end)
}

// The entry of a change's withdrawal; none where its flag is 0.
pub fn put_withdrawal(flag: u16, timestamp: u64, bytes: &mut [u8], at: usize) -> usize
    requires { at + 12 * flag ≤ length bytes.old }
    ensures { Put at (withdrawal_bytes flag timestamp) bytes.old bytes.new result }
{
    let stands = flag == 0;
    if stands {
        return at;
    }
    put_entry(timestamp, 1, 0, 0, bytes, at)
}
