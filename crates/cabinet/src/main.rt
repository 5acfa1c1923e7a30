// The cabinet program: reads a package from standard input and prints what became of it.
#![tactic(auto)]

ghost use Rattle.std.specs.Prelude.{◌≤◌, length, IfOk};

use listing::put_listing;
use std::io;
use std::io::{Read, Write};

// Reads until the buffer is full or the input ends. The answer is how many bytes were read.
fn read_full(reader: &mut (impl Read + Drop), buffer: &mut [u8]) -> io::Result<usize>
    ensures { IfOk result (λ count. count ≤ length buffer.new) }
{
    let mut count = 0;
    for _ in 0..buffer.len() {
        let got = reader.read(&mut buffer[count..])?;
        if got == 0 {
            break;
        }
        count += got;
    }
    Ok(count)
}

// A package has at most 65,534 bytes, and longer input fills the buffer. The text has room for 2,048 lines of 64 bytes.
fn main(rt: HostRuntime) -> io::Result<()> {
    let mut input = [0u8; 65535];
    let count = read_full(&mut rt.reader(), &mut input)?;
    let mut held = [0u16; 1];
    let mut timestamps = [0u64; 128];
    let mut order = [0u16; 128];
    let mut status = [0u16; 128];
    let mut withdrawn = [0u16; 128];
    let mut lengths = [0u16; 128];
    let mut programs = [0u8; 32768];
    let mut reads = [0u16; 128];
    let mut writes = [0u16; 128];
    let mut sources = [0u16; 4096];
    let mut seen = [0i32; 4096];
    let mut targets = [0u16; 4096];
    let mut written = [0i32; 4096];
    let mut view = [0i32; 1024];
    let mut versions = [0u16; 128];
    let mut cutoff = [0u64; 1];
    let mut kept = [0i32; 1024];
    let mut answers = [0u8; 512];
    let mut text = [0u8; 131072];
    let end = put_listing(
        &input[..count],
        &mut held,
        &mut timestamps,
        &mut order,
        &mut status,
        &mut withdrawn,
        &mut lengths,
        &mut programs,
        &mut reads,
        &mut writes,
        &mut sources,
        &mut seen,
        &mut targets,
        &mut written,
        &mut view,
        &mut versions,
        &mut cutoff,
        &mut kept,
        &mut answers,
        &mut text,
    );
    io::writer(&rt).write_all(&text[..end])
}
