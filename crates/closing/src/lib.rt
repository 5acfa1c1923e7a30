// The tables of a cutoff closed up to the places that remain.
#![tactic(auto)]

ghost use Rattle.std.specs.Prelude.{take};
ghost use Rattle.closing.specs.Closing.{ColumnsClosable, ColumnsClosed, BlocksClosable, BlocksClosed};

use compaction::close;

// The tables with one slot for each place, closed up to the places that remain.
pub fn close_columns(
    found: usize,
    places: &[u16; 4096],
    timestamps: &mut [u64],
    status: &mut [u16],
    withdrawn: &mut [u16],
    lengths: &mut [u16],
    reads: &mut [u16],
    writes: &mut [u16],
    versions: &mut [u16],
)
    requires { ColumnsClosable found places.now timestamps.old status.old withdrawn.old lengths.old reads.old writes.old versions.old }
    ensures { ColumnsClosed (take found places.now) timestamps.old status.old withdrawn.old
        lengths.old reads.old writes.old versions.old timestamps.new
        status.new withdrawn.new lengths.new reads.new writes.new
        versions.new }
{
    close(1, found, places, timestamps);
    close(1, found, places, status);
    close(1, found, places, withdrawn);
    close(1, found, places, lengths);
    close(1, found, places, reads);
    close(1, found, places, writes);
    close(1, found, places, versions);
}

// The tables with a block for each place, closed up to the places that remain.
pub fn close_blocks(
    found: usize,
    places: &[u16; 4096],
    programs: &mut [u8],
    sources: &mut [u16],
    seen: &mut [i32],
    targets: &mut [u16],
    written: &mut [i32],
)
    requires { BlocksClosable found places.now programs.old sources.old seen.old targets.old written.old }
    ensures { BlocksClosed (take found places.now) programs.old sources.old seen.old
        targets.old written.old programs.new sources.new seen.new
        targets.new written.new }
{
    close(256, found, places, programs);
    close(32, found, places, sources);
    close(32, found, places, seen);
    close(32, found, places, targets);
    close(32, found, places, written);
}
