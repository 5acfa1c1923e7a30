// The listing of a package: the reply to it on tables just set up.
#![tactic(auto)]

ghost use Rattle.std.specs.Prelude.{◌≡◌, true, ◌≤◌, length};
ghost use Rattle.io.specs.Counts.{IsPrefixLen};
ghost use Rattle.text.specs.Pieces.{Put};
ghost use Rattle.model.specs.Tables.{tables};
ghost use Rattle.model.specs.Form.{lengths_fit};
ghost use Rattle.replies.specs.Replies.{capacity};
ghost use Rattle.listing.specs.Listing.{listing};

use intake_anew::take_in_anew;
use replies::{CAPACITY, put_reply};

// The listing of a package that is taken in on tables just set up.
pub fn put_listing(
    bytes: &[u8],
    held: &mut [u16],
    timestamps: &mut [u64],
    order: &mut [u16],
    status: &mut [u16],
    withdrawn: &mut [u16],
    lengths: &mut [u16],
    programs: &mut [u8],
    reads: &mut [u16],
    writes: &mut [u16],
    sources: &mut [u16],
    seen: &mut [i32],
    targets: &mut [u16],
    written: &mut [i32],
    view: &mut [i32],
    versions: &mut [u16],
    cutoff: &mut [u64],
    kept: &mut [i32],
    answers: &mut [u8],
    text: &mut [u8],
) -> usize
    requires fitting { lengths_fit capacity
        (tables held.old timestamps.old order.old status.old withdrawn.old lengths.old programs.old
        reads.old writes.old sources.old seen.old targets.old written.old view.old versions.old cutoff.old kept.old)
        ≡ true }
    requires answers_len { (length answers.old ≡ 512) × (131072 ≤ length text.old) }
    ensures listed { let T =
        tables held.old timestamps.old order.old status.old withdrawn.old
        lengths.old programs.old reads.old writes.old sources.old
        seen.old targets.old written.old view.old versions.old cutoff.old kept.old in
        Put 0 (listing T bytes.now answers.old) text.old text.new result }
    ensures prefix_len { IsPrefixLen result text.new }
{
    let answer = take_in_anew(
        CAPACITY, bytes, held, timestamps, order, status, withdrawn, lengths, programs, reads,
        writes, sources, seen, targets, written, view, versions, cutoff, kept, answers,
    );
    put_reply(
        held, timestamps, order, status, withdrawn, lengths, programs, reads, writes, sources,
        seen, targets, written, view, versions, cutoff, kept, answer, bytes, answers, text,
    )
}
