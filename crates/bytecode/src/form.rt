// The test of a program's form.
ghost use Rattle.std.specs.Prelude.{◌≡◌, ◌<◌};
ghost use Rattle.machine.specs.Form.{is_below, length_fits, all_well_formed};
ghost use Rattle.bytecode.specs.Masks.{mask_of, reach_of};

use crate::program::{encoding_at, word_at};

// Whether n is at least 0 and below a limit.
pub fn is_below(n: i32, limit: usize) -> bool
    ensures { result ≡ is_below n limit }
{
    0 <= n && (n as usize) < limit
}

// Whether a program has at most 256 bytes, a multiple of 8: not refusal 6.
pub fn length_fits(program: &[u8]) -> bool
    ensures { result ≡ length_fits program.now }
{
    program.len() <= 256 && program.len() % 8 == 0
}

// The bits that are 0 in a well-formed instruction, by its operation: from the left those of n, c, b, a and the operation.
// Constants alone, so that the match compiles to a table.
fn mask_of(operation: u8) -> u64
    requires { operation < 18 }
    ensures { result ≡ mask_of operation }
{
    match operation {
        0 => 0xFFFFFFFF_FF_FF_FF_00,
        1 => 0x00000000_FF_FF_F8_00,
        2 => 0xFFFFFFFF_FF_F8_F8_00,
        3 => 0xFFFFFFFF_F8_F8_F8_00,
        4 => 0xFFFFFFFF_F8_F8_F8_00,
        5 => 0xFFFFFFFF_FF_F8_F8_00,
        6 => 0xFFFFFFE0_FF_F8_F8_00,
        7 => 0xFFFFFFFF_FF_F8_F8_00,
        8 => 0xFFFFFFFF_F8_F8_F8_00,
        9 => 0xFFFFFFFF_F8_F8_F8_00,
        10 => 0xFFFFFFFF_F8_F8_F8_00,
        11 => 0xFFFFFC00_FF_FF_F8_00,
        12 => 0xFFFFFFFF_FF_F8_F8_00,
        13 => 0xFFFFFC00_FF_FF_F8_00,
        14 => 0xFFFFFFFF_FF_F8_F8_00,
        15 => 0x80000000_FF_F8_FF_00,
        16 => 0x80000000_FF_F8_FF_00,
        17 => 0x80000000_FF_FF_FF_00,
        _ => 0,
    }
}

// The distance of an operation that has one, given the pattern of n, else 0.
fn reach_of(operation: u8, n: u32) -> usize
    ensures { result ≡ reach_of operation n }
{
    if 15 <= operation { n as usize } else { 0 }
}

// Whether every instruction of a program is well formed: not refusal 7. Bits that should be 0 are gathered and tested after the
// last instruction, so that in a well-formed program no branch goes by the operation.
pub fn well_formed(program: &[u8]) -> bool
    ensures { result ≡ all_well_formed program.now }
{
    let count = program.len() / 8;
    let mut any = 0;
    for place in 0..count {
        let at = place * 8;
        let operation = program[at];
        if 17 < operation {
            return false;
        }
        let n = word_at(program, at + 4);
        any |= encoding_at(program, at) & mask_of(operation);
        if count - place <= reach_of(operation, n) {
            return false;
        }
    }
    any == 0
}
