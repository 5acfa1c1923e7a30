// The lines of a listing, each put into a buffer of text. A line takes at most 64 bytes.
#![tactic(auto)]

ghost use Rattle.std.specs.Prelude.{◌+◌, ◌≤◌, length};
ghost use Rattle.text.specs.Pieces.{Put};
ghost use Rattle.model.specs.Answers.{Faulted, as_turned};
ghost use Rattle.lines.specs.Lines.{package_line, outcome, entry_line, turn_of, turn_line, setting_line};

use model::{Refusal, Turn};
use text::{put, put_number, put_signed};

// The line of a package that is refused.
pub fn put_refusal(refusal: u8, text: &mut [u8], at: usize) -> usize
    requires { at + 64 ≤ length text.old }
    ensures put { Put at (package_line refusal) text.old text.new result }
    ensures upper_bound { result ≤ at + 64 }
{
    let mut end = put(b"package refused ", text, at);
    end = put_number(refusal as u64, text, end);
    put(b"\n", text, end)
}

// What became of an entry, by its kind and the number of its answer.
fn put_outcome(kind: u8, answer: u8, text: &mut [u8], at: usize) -> usize
    requires { at + 28 ≤ length text.old }
    ensures put { Put at (outcome kind answer) text.old text.new result }
    ensures upper_bound { result ≤ at + 28 }
{
    if answer == 255 {
        return put(b"held", text, at);
    }
    if answer != 0 {
        let end = put(b"refused ", text, at);
        return put_number(answer as u64, text, end);
    }
    if kind == 0 {
        return put(b"taken", text, at);
    }
    put(b"withdrawn", text, at)
}

// The line of an entry, by its index in the contents.
pub fn put_entry(index: usize, kind: u8, answer: u8, text: &mut [u8], at: usize) -> usize
    requires { at + 64 ≤ length text.old }
    ensures put { Put at (entry_line index kind answer) text.old text.new result }
    ensures upper_bound { result ≤ at + 64 }
{
    let mut end = put(b"entry ", text, at);
    end = put_number(index as u64, text, end);
    end = put(b" ", text, end);
    end = put_outcome(kind, answer, text, end);
    put(b"\n", text, end)
}

// The line of a turn that did something, by its timestamp.
fn put_turn_of(timestamp: u64, done: &[u8], text: &mut [u8], at: usize) -> usize
    requires { (length done.now ≤ 16) × (at + 64 ≤ length text.old) }
    ensures put { Put at (turn_of timestamp done.now) text.old text.new result }
    ensures upper_bound { result ≤ at + 64 }
{
    let mut end = put(b"turn ", text, at);
    end = put_number(timestamp, text, end);
    end = put(done, text, end);
    put(b"\n", text, end)
}

// The line of a turn that faulted, by its timestamp and the place.
fn put_fault(timestamp: u64, place: usize, text: &mut [u8], at: usize) -> usize
    requires { at + 64 ≤ length text.old }
    ensures put { Put at (turn_line (Faulted timestamp place)) text.old text.new result }
    ensures upper_bound { result ≤ at + 64 }
{
    let mut end = put(b"turn ", text, at);
    end = put_number(timestamp, text, end);
    end = put(b" faulted ", text, end);
    end = put_number(place as u64, text, end);
    put(b"\n", text, end)
}

// The line of a turn's answer. An idle one has none, nor has a refusal.
pub fn put_turn(answer: Result<Turn, Refusal>, text: &mut [u8], at: usize) -> usize
    requires { at + 64 ≤ length text.old }
    ensures put { Put at (turn_line (as_turned answer)) text.old text.new result }
    ensures upper_bound { result ≤ at + 64 }
{
    match answer {
        Ok(turn) => match turn {
            Turn::Idle => at,
            Turn::Ran(timestamp) => put_turn_of(timestamp, b" ran", text, at),
            Turn::Stood(timestamp) => put_turn_of(timestamp, b" stood", text, at),
            Turn::Cleared(timestamp) => put_turn_of(timestamp, b" cleared", text, at),
            Turn::Faulted(timestamp, place) => put_fault(timestamp, place, text, at),
        },
        Err(_) => at,
    }
}

// The line of a setting and its value. One at the value that it starts at has none.
pub fn put_setting(setting: usize, start: i32, value: i32, text: &mut [u8], at: usize) -> usize
    requires { at + 64 ≤ length text.old }
    ensures put { Put at (setting_line setting start value) text.old text.new result }
    ensures upper_bound { result ≤ at + 64 }
{
    if value == start {
        return at;
    }
    let mut end = put(b"setting ", text, at);
    end = put_number(setting as u64, text, end);
    end = put(b" ", text, end);
    end = put_signed(value, text, end);
    put(b"\n", text, end)
}
