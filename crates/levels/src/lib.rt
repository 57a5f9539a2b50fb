// The levels of the links between a block's joins: how many copies the best way has from a copy of the block down to a link's row, made bottom up for
// one block after another, without unfolding.
//
// `levels` makes the table for the blocks below one; `wins` says which of two levels is better.
#![tactic(auto)]

ghost use Rattle.std.specs.Prelude.{◌≡◌, ◌+◌, ◌<◌, replicate, MatchOption};
ghost use Rattle.model.specs.Limits.{max_joins};
ghost use Rattle.model.specs.Behind.{depth_wins};
ghost use Rattle.blocks.specs.Loaded.{IsBlock};
ghost use Rattle.levels.specs.Levels.{better_level, table_size, level_at};
ghost use Rattle.levels.specs.Tables.{join_cue, Levels, Fresh, Changed, put_level, IsNoJoin, HasPairs, Unlinked, used_joins, MayLift};
ghost use Rattle.levels.specs.Tables.{links_put, uses_lift, use_lift, join_lift, pair_lift};

use blocks::{JOINS, Show, column, from, to, used, wide};
use model::limits::MAX_BLOCKS;

// A level for each two joins of a block, and of all blocks.
pub const PAIRS: usize = JOINS * JOINS;

pub const TABLE: usize = PAIRS * MAX_BLOCKS as usize;

// Levels from join to join, for each block; 0 is none.
#[derive(Drop)]
pub struct Table {
    pub levels: [u8; TABLE],
}

// A block and how many own cues it has: the numbers of its joins follow.
#[derive(Clone, Copy)]
struct Owner {
    block: usize,
    own: u32,
}

// Level a wins over level b: the shorter way does.
// Kept: min or cmp in its place is no plainer: that the shorter way wins is said here once (`depth_wins`).
#[tactic(auto, unfolding(model::specs::Behind::depth_wins))]
pub fn wins(a: u8, b: u8) -> bool
    ensures { result ≡ depth_wins a b }
{
    a < b
}

// The better of two levels, of which 0 is none.
// Kept: 0 and no Option, for fixed memory: a level is a byte of the table, and an Option would be made of each byte that is read and told apart here.
#[tactic(auto, using(basics::proofs::Choices::ifs), unfolding(crate::specs::Levels::better_level))]
fn better_level(a: u8, b: u8) -> u8
    ensures { result ≡ better_level a b }
{
    match (a, b) {
        (_, 0) => a,
        (0, _) => b,
        _ if wins(b, a) => b,
        _ => a,
    }
}

impl Owner {
    // The join, from 0, that cue c of the block is, if it is one.
    fn join(self, c: u32) -> Option<usize>
        ensures { MatchOption result (IsNoJoin self.own c) (λ i. (i < max_joins) × (c ≡ join_cue self.own i)) }
    {
        if c <= self.own {
            return None;
        }
        let i = wide(c - self.own - 1);
        if JOINS <= i {
            return None;
        }
        Some(i)
    }
}

// The level from join i to join j of block k, in any list of levels.
// Kept: beside the method, by what may not change: its clause lets in any list of levels that has block k, which a `Table` is not.
// Kept: `i < max_joins` and `j < max_joins`, here and below, are no plainer in a type of joins: each is an index at once, and the type would be opened for that.
pub fn level_at(levels: &[u8], k: usize, i: usize, j: usize) -> u8
    requires { HasPairs levels.now k × (i < max_joins) × (j < max_joins) }
    ensures { result ≡ level_at levels.now k i j }
{
    levels[PAIRS * k + JOINS * i + j]
}

impl Table {
    // A table without levels.
    #[inline(always)]
    pub fn new() -> Table
        ensures { result.levels ≡ replicate table_size 0 }
    {
        Table { levels: [0; TABLE] }
    }

    // The level from join i to join j of block k.
    // Kept: HasPairs in five contracts is no plainer as a field: it says of the block that is asked for, another in each call, that it is one of the table's.
    pub fn level_at(&self, k: usize, i: usize, j: usize) -> u8
        requires { HasPairs self.now.levels k × (i < max_joins) × (j < max_joins) }
        ensures { result ≡ level_at self.now.levels k i j }
    {
        level_at(&self.levels, k, i, j)
    }

    // Puts in level n from cue a to cue b of a block, if both are joins.
    fn put(&mut self, at: Owner, a: u32, b: u32, n: u8)
        requires { HasPairs self.old.levels at.block }
        ensures { Changed at.block at.own (put_level a b n) self.old.levels self.new.levels }
    {
        let Some(i) = at.join(a) else {
            return;
        };
        let Some(j) = at.join(b) else {
            return;
        };
        let p = PAIRS * at.block + JOINS * i + j;
        self.levels[p] = better_level(self.levels[p], n);
    }

    // Puts in the links of a block.
    // Kept: no plainer as one with lift_uses: each is one loop of one line over rows of its own, and a closure would bring the law of its step along.
    fn put_links(&mut self, show: &Show, at: Owner)
        requires { IsBlock show.now.rows.now at.block × HasPairs self.old.levels at.block }
        ensures { Changed at.block at.own (links_put show.now.rows.now at.block) self.old.levels self.new.levels }
    {
        let rows = show.link_rows(at.block);
        for r in rows.start..rows.end {
            self.put(at, from(show.rows, r), to(show.rows, r), 1);
        }
    }

    // Lifts the level from join i to join j of a use's block through the use of row r.
    // Kept: MayLift in three contracts is no plainer as a field: it speaks of the levels at the call, and they change from call to call.
    fn lift_pair(&mut self, rows: &[u32], at: Owner, r: usize, i: usize, j: usize)
        requires { MayLift rows.now self.old.levels at.block r × (i < used_joins rows.now r) × (j < used_joins rows.now r) }
        ensures { Changed at.block at.own (pair_lift rows.now self.old.levels r i j) self.old.levels self.new.levels }
    {
        let n = self.level_at(used(rows, r), i, j);
        if 0 < n {
            self.put(at, column(rows, r, i), column(rows, r, j), n + 1);
        }
    }

    // No link leads from join i of block k to another. Most joins have none, so their levels are looked at as a whole first.
    // Kept: tried, misses the bar of speed (row_mixed_1024 21.5 us for 19.6): a comparison of slices is a call for each join, so all
    // eight are joined by "or", with no exit.
    fn unlinked(&self, k: usize, i: usize) -> bool
        requires { HasPairs self.now.levels k × (i < max_joins) }
        ensures { Unlinked self.now.levels k i result }
    {
        let at = PAIRS * k + JOINS * i;
        let mut all = 0;
        for j in 0..JOINS {
            all |= self.levels[at + j];
        }
        all == 0
    }

    // Lifts the levels from join i.
    fn lift_join(&mut self, rows: &[u32], at: Owner, r: usize, joins: usize, i: usize)
        requires { MayLift rows.now self.old.levels at.block r × (joins ≡ used_joins rows.now r) × (i < joins) }
        ensures { Changed at.block at.own (join_lift rows.now self.old.levels r i) self.old.levels self.new.levels }
    {
        if self.unlinked(used(rows, r), i) {
            return;
        }
        if column(rows, r, i) <= at.own {
            return;
        }
        for j in 0..joins {
            self.lift_pair(rows, at, r, i, j);
        }
    }

    // Lifts the levels of the block that the use of row r names.
    fn lift_use(&mut self, show: &Show, at: Owner, r: usize)
        requires { MayLift show.now.rows.now self.old.levels at.block r }
        ensures { Changed at.block at.own (use_lift show.now.rows.now self.old.levels r) self.old.levels self.new.levels }
    {
        let joins = show.joins(used(show.rows, r));
        for i in 0..joins {
            self.lift_join(show.rows, at, r, joins, i);
        }
    }

    // Lifts the levels of the blocks that a block uses.
    fn lift_uses(&mut self, show: &Show, at: Owner)
        requires { IsBlock show.now.rows.now at.block × Levels show.now.rows.now self.old.levels at.block }
        ensures { Changed at.block at.own (uses_lift show.now.rows.now self.old.levels at.block) self.old.levels self.new.levels }
    {
        let rows = show.use_rows(at.block);
        for r in rows.start..rows.end {
            self.lift_use(show, at, r);
        }
    }

    // Makes the levels of block k, where those of the blocks below it are made.
    fn make(&mut self, show: &Show, k: usize)
        requires { IsBlock show.now.rows.now k × Levels show.now.rows.now self.old.levels k × Fresh self.old.levels k }
        ensures { Levels show.now.rows.now self.new.levels (k + 1) × Fresh self.new.levels (k + 1) }
    {
        let at = Owner {
            block: k,
            own: show.own(k),
        };
        self.put_links(show, at);
        self.lift_uses(show, at);
    }
}

// Makes the levels of the blocks below end, in a table without any.
// Kept: tried, misses the bar of speed (row_ring 921 ns for 331): a table that is returned has its 8 kB copied twice, so it is lent.
pub fn levels(show: &Show, table: &mut Table, end: usize)
    requires { IsBlock show.now.rows.now end × (table.old.levels ≡ replicate table_size 0) }
    ensures { Levels show.now.rows.now table.new.levels end }
{
    for k in 0..end {
        table.make(show, k);
    }
}
