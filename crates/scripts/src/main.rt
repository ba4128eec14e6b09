// Answers every script of a list, as the program hall does, and writes each answer behind the script's name.
#![tactic(auto)]

use console::{Desk, answer};
use std::fs;
use std::io::Write;

fn main(rt: HostRuntime) -> anyhow::Result<()> {
    let list = fs::read_to_string(&rt, "list")?;
    let mut out = rt.stdout();
    for name in list.lines() {
        let script = fs::read(&rt, name)?;
        let desk = Desk::new(rt.alloc())?;
        let text = answer(&script, desk);
        out.write_all(name.as_bytes())?;
        out.write_all(b"\n")?;
        out.write_all(&text)?;
    }
    Ok(())
}
