// Reads a job from standard input and writes the verdict.
#![tactic(auto)]

use job::{Desk, answer};
use std::io;
use std::io::{Read, Write};

// A job line, 1,500 lines and a byte: what is longer has too many lines or no whole ones, and gets the same answer.
const MOST_BYTES: u64 = 52_536;

fn main(rt: HostRuntime) -> io::Result<()> {
    let mut input = Vec::new(rt.alloc());
    rt.stdin().take(MOST_BYTES).read_to_end(&mut input)?;
    let desk = Desk::new(rt.alloc())?;
    let text = answer(&input, desk);
    rt.stdout().write_all(&text)
}
