// The entries of a package, carried out in order on tables in form.
#![tactic(auto)]

ghost use Rattle.entry.specs.Entry.{with_lent};
ghost use Rattle.entries.specs.Entries.{EntriesReady, EntriesTaken};

use answer_numbers::answer_number;
use entry::take_entry;
use packages::{count_at, entry_at, entry_count};

// The entries of a package carried out in order, on tables in form, and the number of each one's answer stored. A refused entry stops nothing.
pub fn take_entries(
    held: &mut [u16],
    timestamps: &mut [u64],
    order: &mut [u16],
    status: &mut [u16],
    withdrawn: &mut [u16],
    lengths: &mut [u16],
    programs: &mut [u8],
    versions: &mut [u16],
    cutoff: &[u64],
    bytes: &[u8],
    answers: &mut [u8],
)
    requires { EntriesReady bytes.now answers.old
        (λ T. with_lent T held.old timestamps.old order.old status.old withdrawn.old lengths.old programs.old versions.old cutoff.now) }
    ensures { EntriesTaken bytes.now answers.old answers.new
        (λ T.
        with_lent T held.old timestamps.old order.old status.old
        withdrawn.old lengths.old programs.old versions.old cutoff.now)
        (λ T.
        with_lent T held.new timestamps.new order.new status.new
        withdrawn.new lengths.new programs.new versions.new cutoff.now) }
{
    let count = entry_count(bytes);
    let mut body = entry_at(count);
    for j in 0..count {
        let answer = take_entry(
            held, timestamps, order, status, withdrawn, lengths, programs, versions, cutoff, bytes,
            j, body,
        );
        let number = answer_number(answer);
        answers[j] = number;
        body += 8 * count_at(bytes, j);
    }
}
