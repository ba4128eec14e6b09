// Reads a script of calls from standard input and writes what comes of them.
#![tactic(auto)]

use console::{Desk, answer};
use std::io;
use std::io::{Read, Write};

// The longest script and a byte: what is longer is too long, and gets the same answer.
const MOST_BYTES: u64 = 65_537;

fn main(rt: HostRuntime) -> io::Result<()> {
    let mut script = Vec::new(rt.alloc());
    rt.stdin().take(MOST_BYTES).read_to_end(&mut script)?;
    let desk = Desk::new(rt.alloc())?;
    let text = answer(&script, desk);
    rt.stdout().write_all(&text)
}
