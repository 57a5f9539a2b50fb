// The unfolding program: reads a show file from standard input and prints its links, or how many cues it has, or why it is refused.
#![tactic(auto)]

ghost use Rattle.printed.specs.Parts.{Prints};

use blocks::{INDEX, Show};
use model::limits::{MAX_BYTES, ROOM};
use std::io;
use std::io::{Read, Write};
use triples::{LABEL_PLACES, MARKS};

// The bytes of a part of the text, and of its title.
const BUFFER: usize = 65536;

const TITLE: usize = 64;

// One byte more than a file may have.
const FILE: u64 = MAX_BYTES as u64 + 1;

// Prints the lines of all links of a loaded show, part by part.
fn print_links<W: Write>(to: &mut W, show: &Show, cues: u32) -> io::Result<()>
    requires { Prints show.now.rows.now show.now.index.now cues }
{
    let mut marks = [0u8; MARKS];
    let mut out = [0u8; BUFFER];
    let mut from = 0;
    let mut place = LABEL_PLACES * (cues as usize) + LABEL_PLACES;
    // Kept: a `while` that counts nothing: `printed::part` says where it goes on.
    while printed::going(cues, from, place) {
        let at = printed::part(show, cues, from, place, &mut marks, &mut out);
        to.write_all(&out[..at.used])?;
        from = at.from;
        place = at.place;
    }
    Ok(())
}

// Prints the text of a file.
fn print_text<W: Write>(to: &mut W, file: &[u8]) -> io::Result<()> {
    let mut rows = [0u32; ROOM];
    let mut t = [0u32; INDEX];
    let mut out = [0u8; TITLE];
    let begun = printed::begin(file, &mut rows, &mut t, &mut out);
    to.write_all(&out[..begun.used])?;
    if let Some(links) = begun.coming {
        let show = Show {
            rows: &rows[..links.size],
            index: &t,
        };
        print_links(to, &show, links.cues)?;
    }
    Ok(())
}

// A file of more than 65,536 bytes is refused, so one byte more than that is all that is read.
fn main(rt: HostRuntime) -> io::Result<()> {
    let mut file = Vec::new(rt.alloc());
    rt.stdin().take(FILE).read_to_end(&mut file)?;
    // Where nobody reads on, it ends quietly.
    let _ = print_text(&mut rt.stdout(), file.as_slice());
    Ok(())
}
