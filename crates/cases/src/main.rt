// Checks the cases of documents 01 and 02 by the library, and random shows with the answers that a second tool gave.
// A line for each case says ok or WRONG; the last line has the counts.
#![tactic(auto)]

mod asking;
mod data_lines;
mod judging;
mod run;
mod shown;
mod text;

use run::Run;
use std::alloc::Global;
use std::io;
use std::io::{Eprint, Write};
use std::rt::Files;

// The bytes that a file of cases may have.
const TEXT: usize = 524288;

// The cases of both files, read into a list one after the other, and the counts.
fn take_all<R: Files + Eprint, W: Write>(rt: &R, out: &mut W, alloc: Global) -> io::Result<()> {
    // Kept: one list for both files, its length beside it, by what may not change, what `main` does on every file of cases: a last line with no line feed
    // goes on in what the list holds behind it.
    let mut text = vec![in alloc; 0u8; TEXT]?;
    let mut run = Run::new(rt, out, alloc)?;
    run.take_cases("cases.txt", text.as_mut_slice())?;
    run.take_cases("random.txt", text.as_mut_slice())?;
    run.tell_counts()
}

fn main(rt: HostRuntime) -> io::Result<()> {
    take_all(&rt, &mut rt.stdout(), rt.alloc())
}
