// The reply to a package as text: its entries, the turns of one drain, and the settings that differ from their start.
#![tactic(auto)]

ghost use Rattle.std.specs.Prelude.{◌≡◌, ◌+◌, ◌≤◌, length};
ghost use Rattle.text.specs.Pieces.{Put};
ghost use Rattle.model.specs.Answers.{as_done};
ghost use Rattle.model.specs.Tables.{tables};
ghost use Rattle.model.specs.Form.{Formed};
ghost use Rattle.model.specs.Calls.{answer_number, package_reply};
ghost use Rattle.replies.specs.Replies.{capacity, reply_lines};
ghost use Rattle.replies.specs.Putting.{Answered, TurnsPut};

use checker::turn;
use lines::{put_refusal, put_turn};
use model::Refusal;
use reply_parts::{is_idle, put_entries, put_settings};

// How many changes the tables hold.
pub const CAPACITY: usize = 128;

// Turns until idle, and the line of each.
fn put_turns(
    held: &[u16],
    timestamps: &[u64],
    order: &[u16],
    status: &mut [u16],
    withdrawn: &[u16],
    lengths: &[u16],
    programs: &[u8],
    reads: &mut [u16],
    writes: &mut [u16],
    sources: &mut [u16],
    seen: &mut [i32],
    targets: &mut [u16],
    written: &mut [i32],
    view: &mut [i32],
    versions: &[u16],
    cutoff: &[u64],
    kept: &[i32],
    text: &mut [u8],
    at: usize,
) -> usize
    requires formed { Formed capacity
        (tables held.now timestamps.now order.now status.old withdrawn.now lengths.now programs.now
        reads.old writes.old sources.old seen.old targets.old written.old view.old versions.now cutoff.now kept.now) }
    requires at_in_bounds { at + 8256 ≤ length text.old }
    ensures { let T =
        tables held.now timestamps.now order.now status.old withdrawn.now
        lengths.now programs.now reads.old writes.old sources.old
        seen.old targets.old written.old view.old versions.now cutoff.now kept.now in
        TurnsPut T at text.old text.new view.new result }
{
    let mut end = at;
    loop {
        let answer = turn(
            CAPACITY, held, timestamps, order, status, withdrawn, lengths, programs, reads, writes,
            sources, seen, targets, written, view, versions, cutoff, kept,
        );
        end = put_turn(answer, text, end);
        if is_idle(answer) {
            return end;
        }
    }
}

// The lines of a package's reply: its refusal, or its entries, the turns of one drain, and the settings that differ from their start.
pub fn put_reply(
    held: &[u16],
    timestamps: &[u64],
    order: &[u16],
    status: &mut [u16],
    withdrawn: &[u16],
    lengths: &[u16],
    programs: &[u8],
    reads: &mut [u16],
    writes: &mut [u16],
    sources: &mut [u16],
    seen: &mut [i32],
    targets: &mut [u16],
    written: &mut [i32],
    view: &mut [i32],
    versions: &[u16],
    cutoff: &[u64],
    kept: &[i32],
    answer: Result<(), Refusal>,
    bytes: &[u8],
    answers: &[u8],
    text: &mut [u8],
) -> usize
    requires answered { answer_number (as_done answer) ≡ 0 →
        Answered bytes.now
        (tables held.now timestamps.now order.now status.old withdrawn.now lengths.now programs.now
        reads.old writes.old sources.old seen.old targets.old written.old view.old versions.now cutoff.now kept.now) }
    requires answers_len { (length answers.now ≡ 512) × (131072 ≤ length text.old) }
    ensures replied { let T =
        tables held.now timestamps.now order.now status.old withdrawn.now
        lengths.now programs.now reads.old writes.old sources.old
        seen.old targets.old written.old view.old versions.now cutoff.now kept.now in
        Put 0 (reply_lines bytes.now (package_reply (as_done answer) T answers.now)) text.old text.new result }
    ensures upper_bound { result ≤ 131072 }
{
    if let Err(refusal) = answer {
        return put_refusal(u8::from(refusal), text, 0);
    }
    let mut end = put_entries(bytes, answers, text);
    end = put_turns(
        held, timestamps, order, status, withdrawn, lengths, programs, reads, writes, sources,
        seen, targets, written, view, versions, cutoff, kept, text, end,
    );
    put_settings(view, text, end)
}
