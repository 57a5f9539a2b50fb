// The records of marks: which cues of a block a question's links join to each of its joins, made
// from the records of the blocks below.
//
// A `Question` is a loaded show with what is asked of it. Its `marks_of` marks the cues that a cue of
// a block is linked to, and makes the records that this takes; `bit` is a bit of a record.
#![tactic(auto)]

ghost use Rattle.std.specs.Prelude.{◌≡◌, ◌+◌, ◌*◌, ◌-◌, ◌≤◌, ◌<◌, length, replicate};
ghost use Rattle.model.specs.Limits.{max_joins, max_own};
ghost use Rattle.model.specs.Rows.{row_count};
ghost use Rattle.model.specs.Blocks.{block_at, joins_of, blocks_of};
ghost use Rattle.verdicts.specs.Index.{links_from, link_at, use_at};
ghost use Rattle.blocks.specs.Loaded.{IsBlock, IsRow, UseRow};
ghost use Rattle.neighbours.specs.Picks.{near_end, fits, IsLink, Picked};
ghost use Rattle.neighbours.specs.Near.{ByRow, Settled, Table, RecordMade, UseStep, UsesStep, MarksStep};
ghost use Rattle.neighbours.specs.Records.{record_size, HasBlock, bit_at, set_bit, IsCue, Added};

use blocks::{JOINS, Show, column, from, join_at, label, to, used, wide};
use model::limits::MAX_OWN;
use std::ops::Range;

// A record of marks: a flag for each join, then one for what is inside, then 32 bytes with a bit
// for each own cue.
// Kept: flags as bytes and bits, since what may not change (the definitions `Records.record_at` and `Near.Flag`) has records side by side in one table.
pub const INSIDE: usize = JOINS;

pub const BITS: usize = INSIDE + 1;

pub const RECORD: usize = BITS + (MAX_OWN as usize + 7) / 8;

// The records of a block's joins in a table.
pub const BLOCK: usize = JOINS * RECORD;

// What is asked for: the cues that links with labels lo to hi lead to from the cue, or inward from
// which they lead to it, that are greater than after; and how many of them may be written.
// Kept: `inward` is a Bool, for an enum is no plainer: each clause would turn it to the Bool that the definition `Picks.near_end` reads.
#[derive(Clone, Copy)]
pub struct Ask {
    pub inward: bool,
    pub lo: u32,
    pub hi: u32,
    pub after: u32,
    pub room: usize,
}

// A loaded show, and what is asked of it.
#[derive(Clone, Copy)]
pub struct Question<'a> {
    pub show: Show<'a>,
    pub ask: Ask,
}

// A cue of a block: the block, how many own cues it has, and the cue.
#[derive(Clone, Copy)]
pub struct BlockCue {
    pub block: usize,
    pub own: u32,
    pub cue: u32,
    pub ghost few: { own ≤ max_own },
}

// ---- the question's links

impl Ask {
    // The label lies in the range that is asked for.
    fn fits(self, label: u32) -> bool
        ensures { result ≡ fits self label }
    {
        self.lo <= label && label <= self.hi
    }

    // Of the two ends of a link, the one at the cue that is asked about.
    fn near_end(self, from: u32, to: u32) -> u32
        ensures { result ≡ near_end self from to }
    {
        if self.inward { to } else { from }
    }
}

// ---- the marks of a record

// Bit n of a byte, and the byte with that bit set.
// Kept: the shift is no plainer in another form, since an integer has no method for one of its bits.
pub fn bit(b: u8, n: usize) -> u8
    requires { n < 8 }
    ensures { result ≡ bit_at b n }
{
    (b >> n) % 2
}

fn with_bit(b: u8, n: usize) -> u8
    requires { n < 8 }
    ensures { result ≡ set_bit b n }
{
    b | (1 << n)
}

// Marks cue d of the block of cue y in a record. A marked own cue also sets the flag for what is
// inside.
fn mark(s: &mut [u8; RECORD], y: BlockCue, d: u32)
    ensures { Added y.own (IsCue d) s.old s.new }
{
    if y.own < d {
        let j = wide(d - y.own - 1);
        if j < JOINS {
            s[j] = 1;
        }
        return;
    }
    if 0 < d {
        let i = wide(d - 1);
        let b = s[BITS + i / 8];
        s[BITS + i / 8] = with_bit(b, i % 8);
        s[INSIDE] = 1;
    }
}

// Marks the cues that a use meets at joins linked to one of its joins, whose flags are lent.
// Kept: a range in its place is no plainer, as r is the number of one row of the show and no place in the marks; so in `mark_link` and `mark_use`.
fn mark_row(rows: &[u32], r: usize, flags: &[u8], y: BlockCue, s: &mut [u8; RECORD])
    requires { IsRow rows.now r × (length flags.now ≤ max_joins) }
    ensures { Added y.own (ByRow rows.now flags.now r 0 (length flags.now)) s.old s.new }
{
    for (j, flag) in flags.iter().enumerate() {
        if *flag == 1 {
            mark(s, y, column(rows, r, j));
        }
    }
}

// ---- the records of a table

// The flag for what is inside, of a record that is made: 1 if something was marked there, and 2 if
// nothing was. 0 says that there is no record yet.
fn settled(flag: u8) -> u8
    ensures { Settled flag result }
{
    if flag == 1 { 1 } else { 2 }
}

// Kept: `Table` and `HasBlock` in each contract: tried as a ghost field, no proof closed, as it may have one proof only, and `Exact` names a link (`Picked`).
impl Question<'_> {
    // Marks the other end of the link of row r if the question picks it and it has one end at cue y;
    // and so for some rows.
    fn mark_link(&self, r: usize, y: BlockCue, s: &mut [u8; RECORD])
        requires { IsRow self.now.show.rows.now r }
        ensures { Added y.own (IsLink self.now.ask (link_at self.now.show.rows.now r) y.cue) s.old s.new }
    {
        let rows = self.show.rows;
        if self.ask.fits(label(rows, r)) {
            let from = from(rows, r);
            let to = to(rows, r);
            if self.ask.near_end(from, to) == y.cue {
                mark(s, y, self.ask.near_end(to, from));
            }
        }
    }

    fn mark_links(&self, links: Range<usize>, y: BlockCue, s: &mut [u8; RECORD])
        requires { (links.start ≤ links.end) × (links.end ≤ row_count self.now.show.rows.now) }
        ensures { Added y.own (Picked self.now.ask (links_from self.now.show.rows.now links.start (links.end - links.start)) y.cue) s.old s.new }
    {
        for r in links.start..links.end {
            self.mark_link(r, y, s);
        }
    }

    // Marks the cues that are linked to a cue of a block inside the copy of the use of row r; and so
    // for all uses of the block.
    #[cycle(mark_use_mark_uses_marks_of_ready)]
    fn mark_use(&self, m: &mut [u8], y: BlockCue, r: usize, s: &mut [u8; RECORD])
        requires { UseRow self.now.show.rows.now y.block r × HasBlock m.old y.block × Table self.now.ask (blocks_of self.now.show.rows.now) m.old }
        ensures { UseStep self.now.ask (blocks_of self.now.show.rows.now) y.own y.cue
            (use_at self.now.show.rows.now (blocks_of self.now.show.rows.now) r) m.old s.old m.new s.new }
    {
        let j = used(self.show.rows, r);
        let joins = self.show.joins(j);
        if let Some(i) = join_at(self.show.rows, r, joins, y.cue) {
            let at = BLOCK * j + RECORD * i;
            self.ready(m, j, i);
            mark_row(self.show.rows, r, &m[at..at + joins], y, s);
            let flag = m[at + INSIDE];
            if flag == 1 {
                s[INSIDE] = 1;
            }
        }
    }

    #[cycle(mark_use_mark_uses_marks_of_ready)]
    fn mark_uses(&self, m: &mut [u8], y: BlockCue, s: &mut [u8; RECORD])
        requires { IsBlock self.now.show.rows.now y.block × HasBlock m.old y.block × Table self.now.ask (blocks_of self.now.show.rows.now) m.old }
        ensures { UsesStep self.now.ask (blocks_of self.now.show.rows.now) y.own y.cue
            (block_at (blocks_of self.now.show.rows.now) y.block).uses m.old s.old m.new s.new }
    {
        let rows = self.show.use_rows(y.block);
        for r in rows.start..rows.end {
            self.mark_use(m, y, r, s);
        }
    }

    // Marks the cues of block k that are linked to its cue c in a record without marks.
    #[cycle(mark_use_mark_uses_marks_of_ready)]
    pub fn marks_of(&self, m: &mut [u8], k: usize, c: u32, s: &mut [u8; RECORD])
        requires { IsBlock self.now.show.rows.now k
            × HasBlock m.old k
            × Table self.now.ask (blocks_of self.now.show.rows.now) m.old
            × (s.old ≡ replicate record_size 0) }
        ensures { MarksStep self.now.ask (blocks_of self.now.show.rows.now) k c m.old m.new s.new }
    {
        let own = self.show.own(k);
        let y = BlockCue {
            block: k,
            own,
            cue: c,
        };
        self.mark_links(self.show.link_rows(k), y, s);
        self.mark_uses(m, y, s);
    }

    // Makes the record of join i of block k, if it is not there yet.
    // Kept: the table is lent as a whole, and k and i beside it, since what may not change (`RecordMade`) is said of the table: records below are made too.
    #[cycle(mark_use_mark_uses_marks_of_ready)]
    #[tactic(auto, using(crate::proofs::Tables::record_made_before))]
    fn ready(&self, m: &mut [u8], k: usize, i: usize)
        requires { IsBlock self.now.show.rows.now k
            × HasBlock m.old k
            × (i < joins_of (blocks_of self.now.show.rows.now) k)
            × Table self.now.ask (blocks_of self.now.show.rows.now) m.old }
        ensures { RecordMade self.now.ask (blocks_of self.now.show.rows.now) k i m.old m.new }
    {
        let at = BLOCK * k + RECORD * i;
        let known = m[at + INSIDE];
        if 0 < known {
            return;
        }
        let own = self.show.own(k);
        let c = own + 1 + (i as u32);
        let mut s: [u8; RECORD] = [0; RECORD];
        self.marks_of(m, k, c, &mut s);
        m[at..at + RECORD].copy_from_slice(&s);
        m[at + INSIDE] = settled(s[INSIDE]);
    }
}
