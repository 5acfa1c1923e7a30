// The types that the definitions of a program's meaning share with the code that runs it.
#![tactic(auto)]

// One instruction: operation, a, b, c and n.
#[derive(Clone, Copy, Drop)]
pub struct Instruction {
    pub operation: u8,
    pub a: u8,
    pub b: u8,
    pub c: u8,
    pub n: i32,
}

// What an operation takes n for: nothing (n is 0), any number, a number of bits to shift by, a setting, a number of
// instructions to pass over.
#[derive(Clone, Copy, Drop)]
pub enum Operand {
    Unused,
    Number,
    Bits,
    Setting,
    Distance,
}

// What an operation takes: a, b and c are below these limits, n is of this kind.
#[derive(Clone, Copy, Drop)]
pub struct Format {
    pub a: u8,
    pub b: u8,
    pub c: u8,
    pub n: Operand,
}

// What an instruction does, once its registers are read.
#[derive(Clone, Copy, Drop)]
pub enum Effect {
    // The run stops.
    Halt,
    // A register is set to a value.
    Assign(usize, i32),
    // A register is set to the setting of this number.
    Load(usize, i32),
    // The setting of this number is set to a value.
    Store(i32, i32),
    // So many instructions are passed over.
    Skip(i32),
}
