// Checks 5 to 8 of one row, in lent rows: `fault`.
#![tactic(auto)]

ghost use Rattle.std.specs.Prelude.{◌≡◌, ◌+◌, ◌-◌, ◌≤◌, ◌<◌, ◌++◌, ◌∷◌, [], length, get_or, drop, IfOk};
ghost use Rattle.model.specs.Choice.{if_lt};
ghost use Rattle.model.specs.Limits.{row_size, max_joins};
ghost use Rattle.model.specs.Rules.{every, is_cue, is_zero, distinct, is_below};
ghost use Rattle.rules.specs.Cells.{cells};
ghost use Rattle.rules.specs.Faults.{named_fault, open_fault, link_order, use_order, link_fault, use_fault, fault_of};
ghost use Rattle.rules.specs.Numbers.{said, kind_number, KindGiven};

use faults::{Fault, Kind, State};
use model::limits::{MAX_BLOCKS, MAX_JOINS, MAX_LABEL, MAX_OWN, ROW_SIZE};

pub mod faults;

// A row among lent rows and the row before it, by the places where they begin. The first row counts as the one before itself.
// Kept: a value of the row and of the row before by two functions each, for one with a flag is no plainer; and places, since two parts would be lent from row to row.
#[derive(Clone, Copy)]
pub struct Row<'a> {
    pub xs: &'a [u32],
    pub at: usize,
    pub before: usize,
    ghost whole: { (at + row_size ≤ length xs.now) × (before + row_size ≤ length xs.now) },
}

impl<'a> Row<'a> {
    pub fn block(self) -> u32
        ensures { result ≡ get_or self.entry.xs.now self.entry.at 0 }
    {
        self.xs[self.at]
    }

    // The number of its kind, and the kind, if it is one's.
    pub fn kind_number(self) -> u32
        ensures { result ≡ get_or self.entry.xs.now (self.entry.at + 1) 0 }
    {
        self.xs[self.at + 1]
    }

    pub fn kind(self) -> Result<Kind, Fault>
        ensures { KindGiven (get_or self.entry.xs.now (self.entry.at + 1) 0) result }
    {
        Kind::try_from(self.xs[self.at + 1])
    }

    // The label of a link, the block that a use names, or how many joins a block has.
    pub fn label(self) -> u32
        ensures { result ≡ get_or self.entry.xs.now (self.entry.at + 2) 0 }
    {
        self.xs[self.at + 2]
    }

    // The first column: the own cues of a block.
    pub fn own(self) -> u32
        ensures { result ≡ get_or self.entry.xs.now (self.entry.at + 3) 0 }
    {
        self.xs[self.at + 3]
    }

    fn columns(self) -> &'a [u32]
        ensures { result.now ≡ cells self.entry.xs.now (self.entry.at + 3) max_joins }
    {
        &self.xs[self.at + 3..self.at + ROW_SIZE]
    }

    fn label_before(self) -> u32
        ensures { result ≡ get_or self.entry.xs.now (self.entry.before + 2) 0 }
    {
        self.xs[self.before + 2]
    }

    fn columns_before(self) -> &'a [u32]
        ensures { result.now ≡ cells self.entry.xs.now (self.entry.before + 3) max_joins }
    {
        &self.xs[self.before + 3..self.before + ROW_SIZE]
    }
}

// They are all cues of a block that has so many.
fn every_cue(named: &[u32], cues: u32) -> bool
    ensures { result ≡ every (is_cue cues) named.now }
{
    named.iter().all(|x| 1 <= *x && *x <= cues)
}

// Number i, or 0 where it is one of the first `many`.
fn left_over(x: u32, i: usize, many: usize) -> u32
    ensures { result ≡ if_lt i many 0 x }
{
    if i < many {
        return 0;
    }
    x
}

// Of eight columns all behind the first `many` are 0.
// Kept: all eight are read, with no exit: an iterator's `all` over the rest leaves early, and without that the check took some 12 % less (docs/PROVING.md).
// Kept: `many ≤ max_joins` here and below is no plainer in a type of its own: it is a place in the columns at once, and the type would be opened for that.
fn every_zero(columns: &[u32], many: usize) -> bool
    requires { (length columns.now ≡ 8) × (many ≤ max_joins) }
    ensures { result ≡ every is_zero (drop many columns.now) }
{
    let mut all = 0;
    for (i, x) in columns.iter().enumerate() {
        all |= left_over(*x, i, many);
    }
    all == 0
}

// No number stands twice among them: each differs from all before it.
fn all_distinct(named: &[u32]) -> bool
    ensures { result ≡ distinct named.now }
{
    for i in 1..named.len() {
        if named[..i].contains(&named[i]) {
            return false;
        }
    }
    true
}

// As many columns and then label a come before columns and label b.
// Kept: a loop: the library's order of pairs makes an ordering of each two numbers first, and the check of rows took a quarter to a half longer with it.
fn is_below(x: &[u32], a: u32, y: &[u32], b: u32) -> bool
    requires { length x.now ≡ length y.now }
    ensures { result ≡ is_below (x.now ++ (a ∷ [])) (y.now ++ (b ∷ [])) }
{
    for i in 0..x.len() {
        if x[i] != y[i] {
            return x[i] < y[i];
        }
    }
    a < b
}

// Checks 6 and 7 of the columns of a link or a use that names so many cues.
fn named_fault(row: Row, many: usize, cues: u32) -> Result<(), Fault>
    requires { many ≤ max_joins }
    ensures { said result ≡ named_fault row.entry.xs.now row.entry.at many cues }
{
    let columns = row.columns();
    let named = &columns[..many];
    if !every_cue(named, cues) {
        return Err(Fault::Range);
    }
    if !every_zero(columns, many) {
        return Err(Fault::Range);
    }
    if !all_distinct(named) {
        return Err(Fault::Repeated);
    }
    Ok(())
}

fn open_fault(row: Row, blocks: u32) -> Result<(), Fault>
    ensures { said result ≡ open_fault row.entry.xs.now row.entry.at blocks }
{
    if row.block() != blocks || blocks >= MAX_BLOCKS {
        return Err(Fault::Place);
    }
    if MAX_JOINS < row.label() || MAX_OWN < row.own() || !every_zero(row.columns(), 1) {
        return Err(Fault::Range);
    }
    Ok(())
}

// Check 8 of a link.
fn link_order(row: Row, before: u32) -> Result<(), Fault>
    ensures { said result ≡ link_order row.entry.xs.now row.entry.at row.entry.before before }
{
    if before != Kind::Link as u32 {
        return Ok(());
    }
    if !is_below(
        &row.columns_before()[..2],
        row.label_before(),
        &row.columns()[..2],
        row.label(),
    ) {
        return Err(Fault::Order);
    }
    Ok(())
}

// Check 8 of a use.
fn use_order(row: Row, before: u32) -> Result<(), Fault>
    ensures { said result ≡ use_order row.entry.xs.now row.entry.at row.entry.before before }
{
    if before != Kind::Use as u32 {
        return Ok(());
    }
    let (label, label_before) = (row.label(), row.label_before());
    if is_below(row.columns(), label, row.columns_before(), label_before) {
        return Err(Fault::Order);
    }
    Ok(())
}

fn link_fault(row: Row, seen: State) -> Result<(), Fault>
    ensures { said result ≡ link_fault row.entry.xs.now row.entry.at row.entry.before seen.blocks seen.cues seen.kind }
{
    let block = row.block();
    if block >= seen.blocks || block + 1 != seen.blocks || seen.kind >= Kind::Use as u32 {
        return Err(Fault::Place);
    }
    let label = row.label();
    if label < 1 || MAX_LABEL < label {
        return Err(Fault::Range);
    }
    named_fault(row, 2, seen.cues)?;
    link_order(row, seen.kind)
}

// many is how many joins the block has that the use names.
fn use_fault(row: Row, seen: State, many: usize) -> Result<(), Fault>
    requires { many ≤ max_joins }
    ensures { said result ≡ use_fault row.entry.xs.now row.entry.at row.entry.before seen.blocks seen.cues seen.kind many }
{
    let block = row.block();
    if block >= seen.blocks || block + 1 != seen.blocks {
        return Err(Fault::Place);
    }
    if row.label() >= block {
        return Err(Fault::Range);
    }
    named_fault(row, many, seen.cues)?;
    use_order(row, seen.kind)
}

// The row's kind, or the first of checks 5 to 8 that it fails, behind rows of which so much is known.
pub fn fault(row: Row, seen: State, many: usize) -> Result<Kind, Fault>
    requires { many ≤ max_joins }
    ensures first { said result ≡ fault_of row.entry.xs.now row.entry.at row.entry.before seen.blocks seen.cues seen.kind many }
    ensures kind { IfOk result (λ k. kind_number k ≡ get_or row.entry.xs.now (row.entry.at + 1) 0) }
{
    let kind = row.kind()?;
    match kind {
        Kind::Opening => open_fault(row, seen.blocks)?,
        Kind::Link => link_fault(row, seen)?,
        Kind::Use => use_fault(row, seen, many)?,
    }
    Ok(kind)
}
