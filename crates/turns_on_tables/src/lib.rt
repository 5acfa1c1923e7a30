// A turn, a single turn and all turns of a drain, told on all the lent tables: the number held is read from its table.
#![tactic(auto)]

ghost use Rattle.std.specs.Prelude.{◌≡◌, true, ◌+◌, length, map, replicate};
ghost use Rattle.model.specs.Drain.{total_count};
ghost use Rattle.model.specs.Tables.{tables, with_turn};
ghost use Rattle.model.specs.Answers.{as_turn};
ghost use Rattle.model.specs.Calls.{reply};
ghost use Rattle.model.specs.Form.{Formed};
ghost use Rattle.turns.specs.Turns.{turned, Going, Turnable};
ghost use Rattle.passing.specs.Drained.{drained};
ghost use Rattle.turns_on_tables.specs.Arrays.{says_known, values_in, uses_in};

use model::Turn;
use tables::held_count;
use uses::SettingUses;
use values::KnownValues;

// Of each setting whether its value is known: its number is not 0.
fn known_flags(known: &[u8; 1024]) -> [bool; 1024]
    ensures { result ≡ map says_known known.now }
{
    let mut flags = [false; 1024];
    for i in 0..1024 {
        flags[i] = known[i] != 0;
    }
    flags
}

// A number that says whether a value is known: the number that is there, where it says so, else 1 or 0.
fn number_for(number: u8, flag: bool) -> u8
    ensures said { says_known result ≡ flag }
    ensures kept { says_known number ≡ flag → result ≡ number }
{
    let same = (number != 0) == flag;
    if same { number } else { u8::from(flag) }
}

// Of each setting a number that says whether its value is known.
fn store_flags(flags: &[bool; 1024], known: &mut [u8; 1024])
    ensures { map says_known known.new ≡ flags.now }
{
    for i in 0..1024 {
        known[i] = number_for(known[i], flags[i]);
    }
}

// The turn of the change at position k, with the values as of it that are known. What is noted of the settings serves a drain; a single turn has nothing noted.
pub fn turn_at(
    noted: bool,
    k: usize,
    held: &[u16],
    timestamps: &[u64],
    order: &[u16],
    status: &mut [u16],
    withdrawn: &[u16],
    lengths: &[u16],
    programs: &[u8],
    reads: &mut [u16],
    writes: &mut [u16],
    sources: &mut [u16],
    seen: &mut [i32],
    targets: &mut [u16],
    written: &mut [i32],
    view: &mut [i32],
    versions: &[u16],
    cutoff: &[u64],
    kept: &[i32],
    before: &mut [i32; 1024],
    after: &mut [i32; 1024],
    known: &mut [u8; 1024],
    readers: &mut [u16; 1024],
    writers: &mut [u16; 1024],
    settled: &mut [u16; 1024],
) -> Turn
    requires { let T =
        tables held.now timestamps.now order.now status.old withdrawn.now lengths.now programs.now reads.old
        writes.old sources.old seen.old targets.old written.old view.old versions.now cutoff.now kept.now in
        Turnable noted k T (values_in known.old before.old after.old) (uses_in readers.old writers.old settled.old) }
    ensures { let T =
        tables held.now timestamps.now order.now status.old withdrawn.now
        lengths.now programs.now reads.old writes.old sources.old
        seen.old targets.old written.old view.old versions.now cutoff.now kept.now in
        let U =
        with_turn T status.new reads.new writes.new sources.new seen.new
        targets.new written.new view.new in
        (reply (as_turn result) U ≡ turned T)
        × (noted ≡ true → Going (k + 1) U (values_in known.new before.new after.new) (uses_in readers.new
        writers.new settled.new)) }
{
    let mut values = KnownValues {
        known: known_flags(known),
        before: *before,
        after: *after,
    };
    let mut uses = SettingUses {
        readers: *readers,
        writers: *writers,
        settled: *settled,
    };
    let turn = turns::turn_at(
        noted,
        k,
        held_count(held),
        timestamps,
        order,
        status,
        withdrawn,
        lengths,
        programs,
        reads,
        writes,
        sources,
        seen,
        targets,
        written,
        view,
        versions,
        kept,
        &mut values,
        &mut uses,
    );
    store_flags(&values.known, known);
    *before = values.before;
    *after = values.after;
    *readers = uses.readers;
    *writers = uses.writers;
    *settled = uses.settled;
    turn
}

// One turn: idle, or that of the lowest stamped change that is New or Invalid.
pub fn turn_once(
    held: &[u16],
    timestamps: &[u64],
    order: &[u16],
    status: &mut [u16],
    withdrawn: &[u16],
    lengths: &[u16],
    programs: &[u8],
    reads: &mut [u16],
    writes: &mut [u16],
    sources: &mut [u16],
    seen: &mut [i32],
    targets: &mut [u16],
    written: &mut [i32],
    view: &mut [i32],
    versions: &[u16],
    cutoff: &[u64],
    kept: &[i32],
) -> Turn
    requires { Formed (length order.now)
        (tables held.now timestamps.now order.now status.old withdrawn.now lengths.now programs.now reads.old
        writes.old sources.old seen.old targets.old written.old view.old versions.now cutoff.now kept.now) }
    ensures { let T =
        tables held.now timestamps.now order.now status.old withdrawn.now
        lengths.now programs.now reads.old writes.old sources.old
        seen.old targets.old written.old view.old versions.now cutoff.now kept.now in
        reply (as_turn result)
        (with_turn T status.new reads.new writes.new sources.new seen.new
        targets.new written.new view.new)
        ≡ turned T }
{
    single_turn::turn_once(
        held_count(held),
        timestamps,
        order,
        status,
        withdrawn,
        lengths,
        programs,
        reads,
        writes,
        sources,
        seen,
        targets,
        written,
        view,
        versions,
        kept,
    )
}

// A drain, its turns counted in totals that are 0 before; none, where no change waits.
pub fn turn_all(
    held: &[u16],
    timestamps: &[u64],
    order: &[u16],
    status: &mut [u16],
    withdrawn: &[u16],
    lengths: &[u16],
    programs: &[u8],
    reads: &mut [u16],
    writes: &mut [u16],
    sources: &mut [u16],
    seen: &mut [i32],
    targets: &mut [u16],
    written: &mut [i32],
    view: &mut [i32],
    versions: &[u16],
    cutoff: &[u64],
    kept: &[i32],
    totals: &mut [u16],
)
    requires { Formed (length order.now)
        (tables held.now timestamps.now order.now status.old withdrawn.now lengths.now programs.now reads.old
        writes.old sources.old seen.old targets.old written.old view.old versions.now cutoff.now kept.now)
        × (totals.old ≡ replicate total_count 0) }
    ensures { let T =
        tables held.now timestamps.now order.now status.old withdrawn.now
        lengths.now programs.now reads.old writes.old sources.old
        seen.old targets.old written.old view.old versions.now cutoff.now kept.now in
        reply totals.new
        (with_turn T status.new reads.new writes.new sources.new seen.new
        targets.new written.new view.new)
        ≡ drained T }
{
    drains::turn_all(
        held_count(held),
        timestamps,
        order,
        status,
        withdrawn,
        lengths,
        programs,
        reads,
        writes,
        sources,
        seen,
        targets,
        written,
        view,
        versions,
        kept,
        totals,
    )
}
