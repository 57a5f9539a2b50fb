// What the unfolding program prints for a file, part by part: the lines of a show's links are made as they are wanted, from the table of
// marks of one cue after the other.
#![tactic(auto)]

ghost use Rattle.std.specs.Prelude.{◌≡◌, None, ◌+◌, ◌*◌, ◌≤◌, length, replicate};
ghost use Rattle.model.specs.Limits.{row_size, max_rows};
ghost use Rattle.model.specs.Blocks.{blocks_of};
ghost use Rattle.verdicts.specs.Index.{index_size};
ghost use Rattle.printed.specs.Parts.{is_going, Prints, Stands, Part, TextBegun};

use blocks::{INDEX, Show, wide};
use model::limits::PRINTED_CUES;
use triples::{LABEL_PLACES, MARKS};

// A show whose links are to be printed: how many numbers its rows have, and how many cues there are.
// Kept: a size and not the rows: no plainer as a part, which would keep the caller's list lent that the rows were read to.
#[derive(Clone, Copy)]
pub struct Links {
    pub size: usize,
    pub cues: u32,
}

// How the text begins: how many bytes there are so far, and whose links' lines are still to come, if any are.
#[derive(Clone, Copy)]
pub struct Begun {
    pub used: usize,
    pub coming: Option<Links>,
}

// Where the text goes on, at a place of the table of a cue; and how many bytes of it were made.
#[derive(Clone, Copy)]
pub struct At {
    pub from: u32,
    pub place: usize,
    pub used: usize,
}

// A text that is whole.
fn whole(used: usize) -> Begun
    ensures { (result.used ≡ used) × (result.coming ≡ None) }
{
    Begun { used, coming: None }
}

// Begins the text of a file. It is loaded: its rows go to the beginning of a list, and their index to an empty table.
pub fn begin(file: &[u8], rows: &mut [u32], t: &mut [u32; INDEX], out: &mut [u8; 64]) -> Begun
    requires { (t.old ≡ replicate index_size 0) × (max_rows * row_size ≤ length rows.old) }
    ensures { TextBegun file.now rows.new t.new out.new result }
{
    match loading::load(file, rows, t) {
        Err(refusal) => whole(printing::put_refusal(refusal.number(), refusal.place, out)),
        Ok(size) => {
            let show = Show {
                rows: &rows[..size],
                index: t,
            };
            let cues = show.count();
            if PRINTED_CUES < cues {
                return whole(printing::put_count(cues, out));
            }
            let used = printing::put_links_title(out);
            Begun {
                used,
                coming: Some(Links { size, cues }),
            }
        }
    }
}

// There is still something to look at behind a place.
pub fn going(cues: u32, from: u32, place: usize) -> bool
    ensures { result ≡ is_going cues from place }
{
    let end = LABEL_PLACES * wide(cues) + LABEL_PLACES;
    place < end || from < cues
}

// The next part of the lines of the links, from a place of the table of a cue on.
pub fn part(
    show: &Show,
    cues: u32,
    from: u32,
    place: usize,
    m: &mut [u8; MARKS],
    out: &mut [u8],
) -> At
    requires { Prints show.now.rows.now show.now.index.now cues × Stands (blocks_of show.now.rows.now) m.old from place }
    ensures { Part (blocks_of show.now.rows.now) from place m.old out.old result m.new out.new }
{
    let end = LABEL_PLACES * wide(cues) + LABEL_PLACES;
    if place < end {
        let filled = printing::fill(m, from, place, end, out);
        return At {
            from,
            place: filled.place,
            used: filled.used,
        };
    }
    if cues <= from {
        return At {
            from,
            place,
            used: 0,
        };
    }
    let u = from + 1;
    triples::mark_cue(show, u, m);
    let filled = printing::fill(m, u, LABEL_PLACES, end, out);
    At {
        from: u,
        place: filled.place,
        used: filled.used,
    }
}
