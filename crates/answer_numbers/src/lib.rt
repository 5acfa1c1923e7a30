// Answers as numbers: the answer bytes of a package, and what programs in other languages get.
#![tactic(auto)]

ghost use Rattle.std.specs.Prelude.{◌≡◌, ◌<◌, ℕ, length};
ghost use Rattle.model.specs.Answers.{refusal_number, as_answer, as_done};
ghost use Rattle.model.specs.Calls.{turned_given, value_given, standing_given, packed_given, answer_number};
ghost use Rattle.answer_numbers.specs.Numbers.{value_by, standing_by, packed_by, turned_by, value_number, standing_number, packed_number, turned_number, numbered, given_numbers};

use model::{Outcome, Refusal, Standing, Turn};

// What a refusal is told by: its number.
pub trait RefusalNumber: Copy {
    ghost number_of: { Self → ℕ };

    fn number(self) -> u8
        ensures { result ≡ number_of self };
}

// That of document 01.
impl RefusalNumber for Refusal {
    ghost number_of = { refusal_number };

    fn number(self) -> u8 {
        u8::from(self)
    }
}

// A number as it stands, also where document 01 has no refusal of it.
impl RefusalNumber for u8 {
    ghost number_of = { λ number. number };

    fn number(self) -> u8 {
        self
    }
}

// 0 done, 255 held already, else the refusal.
pub fn answer_number(answer: Result<Outcome, Refusal>) -> u8
    ensures { result ≡ answer_number (as_answer answer) }
{
    match answer {
        Ok(Outcome::Done) => 0,
        Ok(Outcome::Held) => 255,
        Err(refusal) => u8::from(refusal),
    }
}

// The same of a call that is done where it is not refused: 0 done, else the refusal.
pub fn done_number(answer: Result<(), Refusal>) -> u8
    ensures { result ≡ answer_number (as_done answer) }
{
    match answer {
        Ok(()) => 0,
        Err(refusal) => u8::from(refusal),
    }
}

// A value, or 4,294,967,296 + the refusal.
pub fn value_number<R: RefusalNumber>(value: Result<i32, R>) -> i64
    ensures { result ≡ value_number (value_given (value_by R.number_of value)) }
{
    match value {
        Ok(v) => i64::from(v),
        Err(refusal) => 4294967296 + i64::from(refusal.number()),
    }
}

// Status + 256 × flag, or 65,536 + the refusal.
pub fn standing_number<R: RefusalNumber>(standing: Result<Standing, R>) -> u32
    ensures { result ≡ standing_number (standing_given (standing_by R.number_of standing)) }
{
    match standing {
        Ok(standing) => u32::from(standing.status) + u32::from(standing.withdrawn) * 256,
        Err(refusal) => 65536 + u32::from(refusal.number()),
    }
}

// The length of a package, or 65,536 + the refusal.
pub fn packed_number<R: RefusalNumber>(packed: Result<u16, R>) -> u32
    ensures { result ≡ packed_number (packed_given (packed_by R.number_of packed)) }
{
    match packed {
        Ok(size) => u32::from(size),
        Err(refused) => 65536 + u32::from(refused.number()),
    }
}

// 0 idle, 1 ran, 2 stood, 3 cleared, 4 faulted, or 16 + the refusal; the slice gets the timestamp of the change whose turn it was, and the place where it faulted.
pub fn put_turned<R: RefusalNumber>(answer: Result<Turn, R>, values: &mut [u64]) -> u8
    requires { (length values.old ≡ 2) × (turned_number (turned_given (turned_by R.number_of answer)) < 256) }
    ensures { numbered result values.new ≡ given_numbers turned_number values.old (turned_given (turned_by R.number_of answer)) }
{
    match answer {
        Ok(Turn::Idle) => 0,
        Ok(Turn::Ran(t)) => {
            values[0] = t;
            1
        }
        Ok(Turn::Stood(t)) => {
            values[0] = t;
            2
        }
        Ok(Turn::Cleared(t)) => {
            values[0] = t;
            3
        }
        Ok(Turn::Faulted(t, place)) => {
            values[0] = t;
            values[1] = place as u64;
            4
        }
        Err(refusal) => 16 + refusal.number(),
    }
}
