// The check of lent rows, refusals 4 to 10 with their places, and the index of blocks that every question shares: `check`.
//
// The index is one table of four numbers for each block k, at 4 * k and on: the row that opens it, the first row behind its links, the
// first row behind its uses, and its total. Rows are counted from 0 here. A total that is too large is kept as 2,147,483,648.
#![tactic(auto)]

ghost use Rattle.std.specs.Prelude.{◌≡◌, true, ◌+◌, ◌*◌, ◌-◌, ◌≤◌, ◌<◌, length, get_or, replicate, IfSome, unwrap_or};
ghost use Rattle.rules.specs.Numbers.{kind_number};
ghost use Rattle.verdicts.specs.Index.{index_size};
ghost use Rattle.verdicts.specs.Passing.{capped, joins_at, many_of, Many, cues_of, put_at, open_indexed, use_indexed, row_indexed, carried, next_state, Scanned, own_at, stands_at, passes_at, row_number_of, place_from, rows_in, judged, IsChecked};
ghost use Rattle.verdicts.specs.Passing.{fault_in, row_in, blocks_in, check_number};
ghost use Rattle.model.specs.Limits.{row_size, max_rows};

use model::limits::{MAX_BLOCKS, MAX_JOINS, MAX_OWN, MAX_ROWS, MAX_TOTAL, ROW_SIZE};
use model::{Reason, Refusal};
use rules::Row;
use rules::faults::{Fault, Kind, State};

// Limits in the other widths that the code compares them in.
// Kept: here and in other crates, for one is no plainer: the code counts rows, joins and cues in 32 bits and places in 64, and `as` at each use says no more.
const MAX_ROWS_32: u32 = MAX_ROWS as u32;

const MAX_JOINS_64: usize = MAX_JOINS as usize;

// What stands for a total that is too large.
const TOO_LARGE: u32 = MAX_TOTAL + 1;

// The numbers of a block in the index, and of the whole index.
pub const ENTRY: usize = 4;

pub const INDEX: usize = ENTRY * MAX_BLOCKS as usize;

// The first row with a fault of 5 to 8, counted from 1, and its fault.
#[derive(Clone, Copy, Debug, PartialEq, Eq)]
pub struct FaultyRow {
    pub fault: Fault,
    pub row: u32,
}

// The two checks of a block behind the rows: that it may end as it does, 9, and that its total is not too large, 10.
// Kept: an enum that chooses, for a closure or two loops are no plainer: the search for the first block that fails is the same, and its clause names the check.
#[derive(Clone, Copy, Debug, PartialEq, Eq)]
enum BlockCheck {
    Ends,
    Total,
}

// A number by its place, 0 past the end.
pub fn get(xs: &[u32], i: usize) -> u32
    ensures { result ≡ get_or xs.now i 0 }
{
    xs.get(i).copied().unwrap_or(0)
}

// A number of the table put in at its place, if it has that place.
// Kept: tried by get_mut, the proof did not close (`returns-in-Some`: what is written through the Option is not known of the table).
fn put(t: &mut [u32; INDEX], i: usize, v: u32)
    ensures { t.new ≡ put_at t.old i v }
{
    if i < INDEX {
        t[i] = v;
    }
}

// The sum of two totals, held to one more than the largest.
fn add_totals(a: u32, b: u32) -> u32
    ensures { result ≡ capped (a + b) }
{
    a.saturating_add(b).min(TOO_LARGE)
}

// The blocks that rows open, so many so far, by the rows and the index.
#[derive(Clone, Copy)]
struct Blocks<'a> {
    xs: &'a [u32],
    t: &'a [u32; INDEX],
    blocks: u32,
}

// How many joins the block has that a use names; 0 of any other row.
// Kept: 0 and no Option, for what may not change: `rules::fault` and its definition take a number for every row.
fn many_of(t: &[u32; INDEX], row: Row, blocks: u32) -> usize
    ensures { Many (many_of row.entry.xs.now t.now row.entry.at blocks) result }
{
    if row.kind() != Ok(Kind::Use) {
        return 0;
    }
    let label = row.label();
    if label >= blocks {
        return 0;
    }
    let opened = Blocks {
        xs: row.xs,
        t,
        blocks,
    };
    let j = opened.joins(label);
    if MAX_JOINS_64 < j {
        return 0;
    }
    j
}

// How many cues a block has.
fn cues_of(own: u32, joins: u32) -> u32
    ensures { result ≡ cues_of own joins }
{
    if MAX_OWN < own {
        return 0;
    }
    if MAX_JOINS < joins {
        return 0;
    }
    own + joins
}

// What an opening at row r puts into the table, from place `at` on; and what a use of block k adds to the total there.
// Kept: a place and no part of the table, since a row's block number is not known to be small here: past the table's end nothing is put in (`put_at`).
fn index_open(t: &mut [u32; INDEX], at: usize, r: u32, own: u32)
    requires { (r < max_rows) × (at < 17179869184) }
    ensures { t.new ≡ open_indexed t.old at r own }
{
    put(t, at, r);
    put(t, at + 1, r + 1);
    put(t, at + 2, r + 1);
    put(t, at + 3, own);
}

fn index_use(t: &mut [u32; INDEX], at: usize, k: usize)
    requires { (at < 17179869184) × (k < 4294967296) }
    ensures { t.new ≡ use_indexed t.old at k }
{
    let used = get(t, k * ENTRY + 3);
    let total = add_totals(get(t, at + 3), used);
    put(t, at + 3, total);
}

// The table after row r, which has passed.
fn index_row(t: &mut [u32; INDEX], row: Row, kind: Kind, r: u32)
    requires { r < max_rows }
    ensures { t.new ≡ row_indexed t.old (get_or row.entry.xs.now row.entry.at 0) (kind_number kind) (get_or row.entry.xs.now (row.entry.at + 2) 0) (get_or row.entry.xs.now (row.entry.at + 3) 0) r }
{
    let at = row.block() as usize * ENTRY;
    match kind {
        Kind::Opening => index_open(t, at, r, row.own()),
        Kind::Link => {
            put(t, at + 2, r + 1);
            put(t, at + 1, r + 1);
        }
        Kind::Use => {
            put(t, at + 2, r + 1);
            index_use(t, at, row.label() as usize);
        }
    }
}

// What is carried on after a row, which has passed.
fn next_state(row: Row, kind: Kind, s: State) -> State
    requires { (kind_number kind ≡ get_or row.xs.now (row.at + 1) 0) × (s.blocks ≤ max_rows) }
    ensures { carried result ≡ next_state row.entry.xs.now row.entry.at (carried s) }
{
    match kind {
        Kind::Opening => State {
            blocks: s.blocks + 1,
            cues: cues_of(row.own(), row.label()),
            kind: row.kind_number(),
        },
        Kind::Link | Kind::Use => State {
            kind: row.kind_number(),
            ..s
        },
    }
}

// Checks 5 to 8 of n rows in one pass, with the index of what was read in a table that was empty: how many blocks they open, or the first
// row with a fault.
// Kept: n beside the rows, for what may not change: the clause `Scanned xs n` of lists that end in no whole row. And that the table is empty, here and in the
// six functions that lend it on, by fixed memory: it is the caller's array, a table that is handed out is copied (as `levels::levels` found), and cleared here it would be written twice.
pub fn pass(xs: &[u32], n: usize, t: &mut [u32; INDEX]) -> Result<u32, FaultyRow>
    requires { (n * row_size ≤ length xs.now) × (n ≤ max_rows) × (t.old ≡ replicate index_size 0) }
    ensures { Scanned xs.now n t.new result }
{
    let mut s = State {
        blocks: 0,
        cues: 0,
        kind: Kind::Opening as u32,
    };
    for r in 0..n {
        let row = Row {
            xs,
            at: r * ROW_SIZE,
            before: r.saturating_sub(1) * ROW_SIZE,
        };
        let many = many_of(t, row, s.blocks);
        match rules::fault(row, s, many) {
            Ok(kind) => {
                index_row(t, row, kind, r as u32);
                s = next_state(row, kind, s);
            }
            Err(fault) => {
                return Err(FaultyRow {
                    fault,
                    row: r as u32 + 1,
                });
            }
        }
    }
    Ok(s.blocks)
}

// The number of a row that has so many rows before it.
fn row_number(r: u32) -> Option<u32>
    ensures number { unwrap_or result 0 ≡ row_number_of r }
    ensures some { IfSome result (λ row. 0 < row) }
{
    if r < MAX_ROWS_32 { Some(r + 1) } else { None }
}

impl Blocks<'_> {
    // Number c of block k in the index.
    fn indexed(self, k: u32, c: usize) -> u32
        requires { c < 4 }
        ensures { result ≡ get_or self.entry.t.now (k * 4 + c) 0 }
    {
        let t = self.t;
        get(t, k as usize * ENTRY + c)
    }

    // Value c of the row that opens block k.
    fn opening(self, k: u32, c: usize) -> u32
        requires { c < row_size }
        ensures { result ≡ get_or self.entry.xs.now (get_or self.entry.t.now (k * 4) 0 * row_size + c) 0 }
    {
        let f = self.indexed(k, 0) as usize;
        get(self.xs, f * ROW_SIZE + c)
    }

    // The joins and the own cues of block k, which that row has.
    fn joins(self, k: u32) -> usize
        ensures { result ≡ joins_at self.entry.xs.now self.entry.t.now k }
    {
        self.opening(k, 2) as usize
    }

    fn own(self, k: u32) -> u32
        ensures { result ≡ own_at self.entry.xs.now self.entry.t.now k }
    {
        self.opening(k, 3)
    }

    // Check 9 of block k.
    fn stands(self, k: u32) -> bool
        requires { k < 4294967295 }
        ensures { result ≡ stands_at self.entry.xs.now self.entry.t.now self.entry.blocks k }
    {
        let joins = self.joins(k);
        if k + 1 != self.blocks {
            return 0 < joins;
        }
        if joins != 0 {
            return false;
        }
        0 < self.own(k)
    }

    // Check 9 or 10 of block k.
    fn passes(self, k: u32, check: BlockCheck) -> bool
        requires { k < 4294967295 }
        ensures { result ≡ passes_at (check_number check) self.entry.xs.now self.entry.t.now self.entry.blocks k }
    {
        match check {
            BlockCheck::Ends => self.stands(k),
            BlockCheck::Total => self.indexed(k, 3) <= MAX_TOTAL,
        }
    }

    // The opening row of the first block that fails check 9 or 10.
    fn first_failing(self, check: BlockCheck) -> Option<u32>
        ensures number { unwrap_or result 0 ≡ place_from (passes_at (check_number check) self.entry.xs.now self.entry.t.now self.entry.blocks) self.entry.t.now 0 self.entry.blocks }
        ensures some { IfSome result (λ row. 0 < row) }
    {
        for k in 0..self.blocks {
            if !self.passes(k, check) {
                return row_number(self.indexed(k, 0));
            }
        }
        None
    }
}

// How many rows are lent: 0 if they meet refusal 4.
// Kept: an Option is no plainer, since no rows at all meet refusal 4 too: None and Some(0) would be one answer.
fn rows_in(xs: &[u32]) -> usize
    ensures { result ≡ rows_in xs.now }
{
    if xs.len() % ROW_SIZE != 0 {
        return 0;
    }
    if MAX_ROWS < xs.len() / ROW_SIZE {
        return 0;
    }
    xs.len() / ROW_SIZE
}

// The verdict on n rows, after the pass over them.
fn judge(
    xs: &[u32],
    t: &[u32; INDEX],
    n: usize,
    passed: Result<u32, FaultyRow>,
) -> Result<(), Refusal>
    ensures { result ≡ judged xs.now t.now n (fault_in passed) (row_in passed) (blocks_in passed) }
{
    if n == 0 {
        return Err(Refusal::new(Reason::BadRowCount, 0));
    }
    let blocks = match passed {
        Ok(blocks) => blocks,
        Err(faulty) => return Err(Refusal::new(Reason::from(faulty.fault), faulty.row)),
    };
    let opened = Blocks { xs, t, blocks };
    if let Some(ends) = opened.first_failing(BlockCheck::Ends) {
        return Err(Refusal::new(Reason::BadBlock, ends));
    }
    if let Some(totals) = opened.first_failing(BlockCheck::Total) {
        return Err(Refusal::new(Reason::TooManyCues, totals));
    }
    Ok(())
}

// The verdict on lent rows, and the index of their blocks in a table that was empty.
pub fn check(xs: &[u32], t: &mut [u32; INDEX]) -> Result<(), Refusal>
    requires { t.old ≡ replicate index_size 0 }
    ensures { IsChecked xs.now t.new result }
{
    let n = rows_in(xs);
    let passed = pass(xs, n, t);
    judge(xs, t, n, passed)
}
