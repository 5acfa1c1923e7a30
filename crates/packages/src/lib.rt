// The layout of a package, and the parts of its entries.
#![tactic(auto)]

ghost use Rattle.std.specs.Prelude.{◌≡◌, ◌&&◌, ◌+◌, ◌*◌, ◌<◌, ◌≤◌, eqb, length};
ghost use Rattle.general.specs.Lists.{all_below};
ghost use Rattle.model.specs.Package.{entry_count, entry_at, stamp_of, kind_of, count_of, version_of, entry_fits, count_before, layout_fits};

// The number of entries.
pub fn entry_count(bytes: &[u8]) -> usize
    requires { 2 ≤ length bytes.now }
    ensures { result ≡ entry_count bytes.now }
{
    usize::from(u16::from_le_bytes([bytes[0], bytes[1]]))
}

// Where entry j stands. Entry k of k entries would stand where the bodies begin.
pub fn entry_at(j: usize) -> usize
    requires { entry_at j < 18446744073709551616 }
    ensures { result ≡ entry_at j }
{
    2 + 12 * j
}

// The timestamp of entry j.
pub fn timestamp_at(bytes: &[u8], j: usize) -> u64
    requires { entry_at j + 12 ≤ length bytes.now }
    ensures { result ≡ stamp_of bytes.now j }
{
    let at = entry_at(j);
    let mut stamp = [0; 8];
    stamp.copy_from_slice(&bytes[at..at + 8]);
    u64::from_le_bytes(stamp)
}

// The kind of entry j: 0 change, 1 withdrawal.
pub fn kind_at(bytes: &[u8], j: usize) -> u8
    requires { entry_at j + 12 ≤ length bytes.now }
    ensures { result ≡ kind_of bytes.now j }
{
    bytes[entry_at(j) + 8]
}

// The instruction count of entry j.
pub fn count_at(bytes: &[u8], j: usize) -> usize
    requires { entry_at j + 12 ≤ length bytes.now }
    ensures { result ≡ count_of bytes.now j }
{
    usize::from(bytes[entry_at(j) + 9])
}

// The version of entry j.
pub fn version_at(bytes: &[u8], j: usize) -> u16
    requires { entry_at j + 12 ≤ length bytes.now }
    ensures { result ≡ version_of bytes.now j }
{
    u16::from(bytes[entry_at(j) + 10])
}

// Whether entry j has a kind, an instruction count and a version that fit it, and a zero byte.
fn entry_fits(bytes: &[u8], j: usize) -> bool
    requires { entry_at j + 12 ≤ length bytes.now }
    ensures { result ≡ entry_fits bytes.now j }
{
    let at = entry_at(j);
    let kind = bytes[at + 8];
    let count = bytes[at + 9];
    let version = bytes[at + 10];
    (kind <= 1)
        & (count <= 32)
        & ((kind == 0) | (count == 0))
        & (version <= 1)
        & ((kind == 0) | (version == 0))
        & (bytes[at + 11] == 0)
}

// Whether the first count entries are right, and their bodies, of 8 bytes for each instruction, fill the rest of the bytes exactly.
fn bodies_fit(bytes: &[u8], count: usize) -> bool
    requires { (count ≤ 512) × (entry_at count ≤ length bytes.now) }
    ensures { result ≡ (all_below count (entry_fits bytes.now) && eqb (length bytes.now) (entry_at count + 8 * count_before bytes.now count)) }
{
    let mut fits = true;
    let mut body = entry_at(count);
    for j in 0..count {
        fits &= entry_fits(bytes, j);
        body += 8 * count_at(bytes, j);
    }
    fits & (bytes.len() == body)
}

// Whether the bytes are laid out as a package: not refusal 3.
pub fn layout_fits(bytes: &[u8]) -> bool
    ensures { result ≡ layout_fits bytes.now }
{
    let length = bytes.len();
    if !((2 <= length) & (length <= 65535)) {
        return false;
    }
    let count = entry_count(bytes);
    if 512 < count {
        return false;
    }
    if length < entry_at(count) {
        return false;
    }
    bodies_fit(bytes, count)
}
