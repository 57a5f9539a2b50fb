// Copies of blocks in the show, and the way down to the one that owns a cue, without unfolding.
//
// `descend` goes from the show along the rows of a place, use by use: a use gives the copy inside its block, the number that its cues
// follow, and the cues that its joins meet.
#![tactic(auto)]

ghost use Rattle.std.specs.Prelude.{◌≡◌, ◌+◌, ◌≤◌};
ghost use Rattle.model.specs.Limits.{max_joins, max_total};
ghost use Rattle.model.specs.Unfolding.{cue_at};
ghost use Rattle.blocks.specs.Loaded.{IsRow};
ghost use Rattle.blocks.specs.Places.{Found};
ghost use Rattle.copies.specs.Copies.{inner_base, MayStep, Stepped, ColumnsFit, MeetIs, CopyAt};

use blocks::{JOINS, Place, Show, column, used, wide};

// A copy of a block in the show: its block, the number that its own cues follow, and the cues that its joins meet.
#[derive(Clone, Copy)]
pub struct Frame {
    pub block: usize,
    pub base: u32,
    pub met: [u32; JOINS],
}

// The number of cue c of a copy of a block with own own cues.
fn cue_number(own: u32, z: Frame, c: u32) -> u32
    requires { (c ≤ own + max_joins) × (z.base + own ≤ max_total) }
    ensures { result ≡ cue_at own z.base z.met c }
{
    if own < c {
        let met = z.met;
        let j = wide(c - own - 1);
        return met[j];
    }
    z.base + c
}

// The cues that the joins of the use of row r meet, in a copy.
fn meet(rows: &[u32], r: usize, joins: usize, own: u32, z: Frame) -> [u32; JOINS]
    requires { IsRow rows.now r × (joins ≤ max_joins) × (z.base + own ≤ max_total) × ColumnsFit rows.now r joins own }
    ensures { MeetIs rows.now r joins own z result }
{
    let mut out: [u32; JOINS] = [0; JOINS];
    for j in 0..joins {
        let x = column(rows, r, j);
        let y = cue_number(own, z, x);
        out[j] = y;
    }
    out
}

// The number that the cues of the copy of the use of row r follow, in a copy.
fn inner_base(show: &Show, z: Frame, r: usize) -> u32
    requires { MayStep show.now.rows.now show.now.index.now z r }
    ensures { result ≡ inner_base show.now.rows.now show.now.index.now z.block z.base r }
{
    let mut b = z.base + show.own(z.block);
    let rows = show.use_rows(z.block);
    for i in rows.start..r {
        b += show.size_of(z.block, i);
    }
    b
}

// One step down: into the copy of the use of row r.
fn step(show: &Show, z: Frame, r: usize) -> Frame
    requires { MayStep show.now.rows.now show.now.index.now z r }
    ensures { Stepped show.now.rows.now show.now.index.now z r result }
{
    let own = show.own(z.block);
    let j = used(show.rows, r);
    let joins = show.joins(j);
    let out = meet(show.rows, r, joins, own, z);
    let b = inner_base(show, z, r);
    Frame {
        block: j,
        base: b,
        met: out,
    }
}

// The copy that owns the cue of a place: along the rows from the show, use by use.
pub fn descend(show: &Show, place: Place, rows: &[u32]) -> Frame
    requires { Found show.now.rows.now show.now.index.now rows.now place }
    ensures { CopyAt show.now.rows.now show.now.index.now rows.now place.depth result }
{
    let mut z = Frame {
        block: show.last(),
        base: 0,
        met: [0; JOINS],
    };
    for l in 0..place.depth {
        z = step(show, z, wide(rows[l]));
    }
    z
}
