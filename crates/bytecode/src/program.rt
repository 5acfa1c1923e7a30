// The instructions of a program's bytes.
ghost use Rattle.std.specs.Prelude.{◌≡◌, ◌+◌, ◌*◌, ◌≤◌, length};
ghost use Rattle.machine.specs.Instruction.{word_at, instruction_at};
ghost use Rattle.bytecode.specs.Masks.{encoding_at};

use machine::Instruction;

// The word in four bytes from a first one on, low byte first.
pub fn word_at(program: &[u8], first: usize) -> u32
    requires { first + 4 ≤ length program.now }
    ensures { result ≡ word_at program.now first }
{
    u32::from_le_bytes([
        program[first],
        program[first + 1],
        program[first + 2],
        program[first + 3],
    ])
}

// The eight bytes at an index as one number, low byte first.
pub fn encoding_at(program: &[u8], at: usize) -> u64
    requires { at + 8 ≤ length program.now }
    ensures { result ≡ encoding_at program.now at }
{
    u64::from_le_bytes([
        program[at],
        program[at + 1],
        program[at + 2],
        program[at + 3],
        program[at + 4],
        program[at + 5],
        program[at + 6],
        program[at + 7],
    ])
}

// The instruction at a place.
pub fn instruction_at(program: &[u8], place: usize) -> Instruction
    requires { place * 8 + 8 ≤ length program.now }
    ensures { result ≡ instruction_at program.now place }
{
    let at = place * 8;
    let n = words::number(word_at(program, at + 4));
    Instruction {
        operation: program[at],
        a: program[at + 1],
        b: program[at + 2],
        c: program[at + 3],
        n,
    }
}
