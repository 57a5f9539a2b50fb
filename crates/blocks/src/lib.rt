// A loaded show, `Show`: accepted rows with the index of their blocks, asked for what these are. Every question stands on it and reads
// neither the rows nor their index by itself; each promise is an equation with the model's blocks.
//
// Of the show: `last`, `count`. Of a block: `own`, `joins`, `total`, `link_rows`, `use_rows`, and `size_of`, of the block that a use names.
// Of the rows alone, a link's row: `from`, `to`, `label`; a use's row: `used`, `column`, `join_at`. A `Place` is where a cue is, and
// `block_on` goes along the rows that lead there.
#![tactic(auto)]

ghost use Rattle.std.specs.Prelude.{◌≡◌, ◌+◌, ◌*◌, ◌-◌, ◌≤◌, ◌<◌, get_or, unwrap_or, IfSome};
ghost use Rattle.model.specs.Limits.{row_size, max_joins, max_own, max_blocks, max_total};
ghost use Rattle.model.specs.Rows.{cell, row_count};
ghost use Rattle.model.specs.Blocks.{joins_of, own_of, total, blocks_of, last_block, count};
ghost use Rattle.verdicts.specs.Index.{link_at, use_at};
ghost use Rattle.blocks.specs.Loaded.{Loaded, IsBlock, LinkRows, UseRows, IsRow, UseRow, column_at, IsJoinAt};
ghost use Rattle.blocks.specs.Once.{Loaded-prop};
ghost use Rattle.blocks.specs.Places.{block_on, UsesTo};

use model::limits::{MAX_JOINS, ROW_SIZE};
use std::ops::Range;

// The most joins of a block.
pub const JOINS: usize = MAX_JOINS as usize;

// The first value of a row that names a cue.
const COLUMNS: usize = 3;

// The numbers of a block in the index: its opening row, the first row behind its links, the first behind its uses, its total.
const ENTRY: usize = verdicts::ENTRY;

const USES: usize = 1;

const END: usize = 2;

const TOTAL: usize = 3;

// The numbers of the whole index.
pub const INDEX: usize = verdicts::INDEX;

// A loaded show: its rows, and the index of their blocks.
#[derive(Clone, Copy)]
pub struct Show<'a> {
    pub rows: &'a [u32],
    pub index: &'a [u32; INDEX],
    pub ghost loaded: { Loaded rows.now index.now } by { Loaded-prop rows.now index.now },
}

// Where a cue is: its number, how many uses lead from the show down to the copy that owns it, that copy's block, and the own cue. The rows
// of these uses stand in a list beside it (`Found`).
#[derive(Clone, Copy)]
pub struct Place {
    pub cue: u32,
    pub depth: usize,
    pub block: usize,
    pub own: u32,
}

// A number as an index.
// Kept: a function, for the callers' proofs rest on the bound that it promises of what it gives, which `as` in an expression does not hand on.
pub fn wide(x: u32) -> usize
    ensures { (result ≡ x) × (result < 4294967296) }
{
    x as usize
}

// Value c of row r.
fn value(rows: &[u32], r: usize, c: usize) -> u32
    requires { (r < row_count rows.now) × (c < row_size) }
    ensures { result ≡ cell rows.now r c }
{
    rows[r * ROW_SIZE + c]
}

// Kept: `IsBlock` in five contracts is no plainer as a type of block numbers: it would hold the rows it speaks of, and a clause had to say that they are the show's.
impl Show<'_> {
    // Number c of block k in the index.
    fn entry(&self, k: usize, c: usize) -> u32
        requires { (k < max_blocks) × (c < 4) }
        ensures { result ≡ get_or self.now.index.now (4 * k + c) 0 }
    {
        self.index[ENTRY * k + c]
    }

    // The last block, which is the show: the block of the last row.
    pub fn last(&self) -> usize
        ensures { (result ≡ last_block (blocks_of self.now.rows.now)) × IsBlock self.now.rows.now result }
    {
        wide(self.rows[self.rows.len() - ROW_SIZE])
    }

    // The own cues of block k.
    pub fn own(&self, k: usize) -> u32
        requires { IsBlock self.now.rows.now k }
        ensures { (result ≡ own_of (blocks_of self.now.rows.now) k) × (result ≤ max_own) }
    {
        value(self.rows, wide(self.entry(k, 0)), COLUMNS)
    }

    // The joins of block k.
    pub fn joins(&self, k: usize) -> usize
        requires { IsBlock self.now.rows.now k }
        ensures { (result ≡ joins_of (blocks_of self.now.rows.now) k) × (result ≤ max_joins) }
    {
        wide(value(self.rows, wide(self.entry(k, 0)), 2))
    }

    // The total of block k.
    pub fn total(&self, k: usize) -> u32
        requires { IsBlock self.now.rows.now k }
        ensures { (result ≡ total (blocks_of self.now.rows.now) k) × (result ≤ max_total) }
    {
        self.entry(k, TOTAL)
    }

    // The count of cues: the total of the show.
    pub fn count(&self) -> u32
        ensures { result ≡ count (blocks_of self.now.rows.now) }
    {
        self.total(self.last())
    }

    // The rows of block k's links.
    // Kept: whoever goes through these rows, or those of the uses, writes `for r in rows.start..rows.end`, a counted loop; `for r in rows` is an iterator, whose
    // proof is no plainer.
    pub fn link_rows(&self, k: usize) -> Range<usize>
        requires { IsBlock self.now.rows.now k }
        ensures { LinkRows self.now.rows.now k result.start result.end }
    {
        wide(self.entry(k, 0)) + 1..wide(self.entry(k, USES))
    }

    // The rows of block k's uses.
    pub fn use_rows(&self, k: usize) -> Range<usize>
        requires { IsBlock self.now.rows.now k }
        ensures { UseRows self.now.rows.now self.now.index.now k result.start result.end }
    {
        wide(self.entry(k, USES))..wide(self.entry(k, END))
    }

    // The block at the end of the first l of the uses that lead to a place.
    pub fn block_on(&self, way: &[u32], l: usize) -> usize
        requires { UsesTo self.now.rows.now way.now l }
        ensures { (result ≡ block_on self.now.rows.now way.now l) × IsBlock self.now.rows.now result }
    {
        if l == 0 {
            return self.last();
        }
        used(self.rows, wide(way[l - 1]))
    }

    // The total of the block that the use of row r names.
    pub fn size_of(&self, k: usize, r: usize) -> u32
        requires { UseRow self.now.rows.now k r }
        ensures { result ≡ total (blocks_of self.now.rows.now) (use_at self.now.rows.now (blocks_of self.now.rows.now) r).block }
    {
        self.total(used(self.rows, r))
    }
}

// Kept: what is asked of one row stays a function of the rows, since its clause (`IsRow`) asks for less than a `Show`. They are alike, being one value of a
// row each; one function for all would be `value`.

// The ends and the label of the link of row r.
pub fn from(rows: &[u32], r: usize) -> u32
    requires { IsRow rows.now r }
    ensures { result ≡ (link_at rows.now r).from }
{
    value(rows, r, COLUMNS)
}

pub fn to(rows: &[u32], r: usize) -> u32
    requires { IsRow rows.now r }
    ensures { result ≡ (link_at rows.now r).to }
{
    value(rows, r, COLUMNS + 1)
}

pub fn label(rows: &[u32], r: usize) -> u32
    requires { IsRow rows.now r }
    ensures { result ≡ (link_at rows.now r).label }
{
    value(rows, r, 2)
}

// The block that the use of row r names.
pub fn used(rows: &[u32], r: usize) -> usize
    requires { IsRow rows.now r }
    ensures { (result ≡ (use_at rows.now (blocks_of rows.now) r).block) × (result < 4294967296) }
{
    wide(value(rows, r, 2))
}

// The cue that join j + 1 of the used block meets in the use of row r.
pub fn column(rows: &[u32], r: usize, j: usize) -> u32
    requires { IsRow rows.now r × (j < max_joins) }
    ensures { result ≡ column_at rows.now r j }
{
    value(rows, r, COLUMNS + j)
}

// The first join of the used block that meets cue c in the use of row r, if one does.
pub fn join_at(rows: &[u32], r: usize, joins: usize, c: u32) -> Option<usize>
    requires { IsRow rows.now r × (joins ≤ max_joins) }
    ensures value { IsJoinAt rows.now r joins c (unwrap_or result joins) }
    ensures some { IfSome result (λ i. i < joins) }
{
    for i in 0..joins {
        if column(rows, r, i) == c {
            return Some(i);
        }
    }
    None
}
