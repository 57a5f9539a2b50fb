// The way between two cues, without unfolding the show. Estimates are relaxed over one block at a
// time, as Bellman and Ford do it. What stands in the work area between the joins of a block, which
// are a rule's external nodes, lets a use count as edges between the cues that it names. From s the
// way goes up the derivation tree, copy by copy to the show, and from there down to the copy of t.
//
// That much is the same whatever links weigh: `row_from`, for a row of the work area, and `reach`,
// for the estimates of a cue's copy. For the fewest follow-ons others call `summarise`, which fills
// the work area with the summaries of all blocks, and `fewest`, which answers the question. And
// `common`, which says how far two places have the same rows.
#![tactic(auto)]

ghost use Rattle.std.specs.Prelude.{◌≡◌, ◌+◌, ◌*◌, ◌≤◌, ◌<◌, ◌++◌, length, get_or, take, drop};
ghost use Rattle.model.specs.Limits.{no_chain, max_depth, work_size, summary_size, summary_width};
ghost use Rattle.model.specs.Blocks.{joins_of, blocks_of, count};
ghost use Rattle.model.specs.Unfolding.{show_links};
ghost use Rattle.model.specs.Chains.{fewest};
ghost use Rattle.model.specs.Summaries.{summary_of, summaries, work_after};
ghost use Rattle.distances.specs.Walks.{each-one};
ghost use Rattle.distances.specs.Tells.{Tells, summaries_to, distance};
ghost use Rattle.blocks.specs.Loaded.{IsBlock};
ghost use Rattle.blocks.specs.Places.{block_on, UsesTo, Found};
ghost use Rattle.searches.specs.Starts.{Started, Merged};
ghost use Rattle.searches.specs.Edges.{cue_count, SpreadIn, MaySettle};
ghost use Rattle.searches.specs.Joins.{JoinsAt, RowKept, JoinsKept};
ghost use Rattle.searches.specs.Knowing.{HasTable, MaySearch};
ghost use Rattle.distance.specs.Summaries.{RowFound, RowsFilled, Below, PartFilled};
ghost use Rattle.copies.specs.ByRows.{copy_on};
ghost use Rattle.searches.specs.Copies.{FromKept, FromAbove, TellsWhole, Risen, Source, Common, Sunk};

use blocks::{Place, Show, wide};
use estimates::{ESTIMATES, NO_CHAIN, Number, clear, gather, put, put_met};
use model::limits::{MAX_BLOCKS, SUMMARY_SIZE, SUMMARY_WIDTH, WORK_SIZE};
use relax::{Prices, Steps, clear_block, from_cue, settle};

// Estimates kept on the way up: eight for each level.
pub const KEPT: usize = SUMMARY_WIDTH * MAX_BLOCKS as usize;

// The work area.

// In what follows a part with a start is taken of `d[..]`, the whole as a slice: the language takes
// none of an array itself where the type of its numbers is a parameter.

// Row i of some numbers, eight to a row: some estimates.
// Kept: a loop, for `copy_from_slice` is no plainer: it needs the end of a part of v too, and its proof the lengths of both.
fn keep_row<N: Number>(v: &mut [N], i: usize, e: &[N])
    requires { summary_width * i + length e.now ≤ length v.old }
    ensures { RowKept (N.values v.old) i (N.values e.now) 0 (length e.now) (N.values v.new) }
{
    for j in 0..e.len() {
        v[SUMMARY_WIDTH * i + j] = e[j];
    }
}

// Row i of block k's part of the work area: the estimates from its join i + 1, which are kept in d.
// Kept: k and i number a block and its join, and the work area goes whole: no plainer in two parts, those of the lower blocks to read and this one to write.
pub fn row_from<N: Number, P: Prices>(
    show: &Show,
    prices: &P,
    k: usize,
    i: usize,
    d: &mut [N; ESTIMATES],
    work: &mut [N],
)
    requires { MaySettle show.now.rows.now show.now.index.now k work.old × (i < joins_of (blocks_of show.now.rows.now) k)
        × (summary_size * k + summary_size ≤ length work.old) }
    ensures { RowFound N.inf (P.price prices.now) (blocks_of show.now.rows.now) k i (N.values work.old) (N.values work.new) }
{
    let first = wide(show.own(k)) + 1;
    let m = show.joins(k);
    from_cue(show, prices, work, k, first + i, d);
    let a = SUMMARY_SIZE * k;
    let e = a + SUMMARY_SIZE;
    keep_row(&mut work[a..e], i, &d[..][first..first + m]);
}

// The way up. Level 0 is the show, and row l of a place's rows leads from level l to level l + 1.

// Kept: `IsBlock` and `UsesTo` as clauses: no plainer as types, which would hold the show they speak of, so that a clause had to say that it is this show.

// The estimates at the joins of block k, kept for level l.
fn keep_joins<N: Number>(show: &Show, k: usize, l: usize, d: &[N; ESTIMATES], kept: &mut [N; KEPT])
    requires { IsBlock show.now.rows.now k × (l ≤ max_depth) }
    ensures { JoinsKept (blocks_of show.now.rows.now) k (N.values kept.old) l (N.values d.now) (N.values kept.new) }
{
    let first = wide(show.own(k)) + 1;
    keep_row(kept, l, &d[..][first..first + show.joins(k)]);
}

// What was kept for level l + 1, at the cues of the use that leads there.
fn put_kept<N: Number>(
    show: &Show,
    rows: &[u32],
    l: usize,
    kept: &[N; KEPT],
    d: &mut [N; ESTIMATES],
)
    requires { UsesTo show.now.rows.now rows.now (l + 1) × (l < max_depth) }
    ensures { Merged (FromKept show.now.rows.now rows.now l (N.values kept.now)) (N.values d.old) (N.values d.new) }
{
    let r = wide(rows[l]);
    let m = show.joins(blocks::used(show.rows, r));
    let a = SUMMARY_WIDTH * (l + 1);
    put_met(show.rows, r, &kept[..][a..a + m], d);
}

// One level up: the estimates of the block at level l from what was kept for level l + 1.
fn rise_one<N: Number, P: Prices>(
    show: &Show,
    prices: &P,
    work: &[N],
    rows: &[u32],
    l: usize,
    kept: &mut [N; KEPT],
    d: &mut [N; ESTIMATES],
)
    requires { HasTable N.inf N.values (P.price prices.now) show.now.rows.now show.now.index.now work.now × UsesTo show.now.rows.now rows.now (l + 1) × (l < max_depth) }
    ensures { SpreadIn N.inf (P.price prices.now) (blocks_of show.now.rows.now) (N.values work.now) (block_on show.now.rows.now rows.now l)
        (FromKept show.now.rows.now rows.now l (N.values kept.old)) (N.values d.new)
        × JoinsKept (blocks_of show.now.rows.now) (block_on show.now.rows.now rows.now l) (N.values kept.old) l (N.values d.new) (N.values kept.new) }
{
    let k = show.block_on(rows, l);
    clear_block(show, k, d);
    put_kept(show, rows, l, kept, d);
    settle(show, prices, work, k, d);
    keep_joins(show, k, l, d, kept);
}

// The estimates of the show from the cue of a place, and what each copy on the way has at its
// joins.
fn climb<N: Number, P: Prices>(
    show: &Show,
    prices: &P,
    work: &[N],
    from: Place,
    rows: &[u32],
    kept: &mut [N; KEPT],
    d: &mut [N; ESTIMATES],
)
    requires { MaySearch N.inf N.values (P.price prices.now) show.now.rows.now show.now.index.now work.now rows.now from }
    ensures { Risen N.inf (P.price prices.now) show.now.rows.now show.now.index.now rows.now from 0 (N.values kept.new) (N.values d.new) }
{
    from_cue(show, prices, work, from.block, wide(from.own), d);
    keep_joins(show, from.block, from.depth, d, kept);
    for l in (0..from.depth).rev() {
        rise_one(show, prices, work, rows, l, kept, d);
    }
}

// The way down.

// Estimates to begin with at some cues, one for each.
fn put_joins<N: Number>(e: &[N], d: &mut [N])
    requires { length e.now ≤ length d.old }
    ensures { Merged (JoinsAt 0 (N.values e.now) (length e.now)) (N.values d.old) (N.values d.new) }
{
    for i in 0..e.len() {
        put(d, i, e[i]);
    }
}

// From the estimates at level l to those that the block at level l + 1 begins with: its joins have
// what the cues that they meet have.
fn enter<N: Number>(show: &Show, rows: &[u32], l: usize, d: &mut [N; ESTIMATES])
    requires { UsesTo show.now.rows.now rows.now (l + 1) }
    ensures { Started N.inf (cue_count (blocks_of show.now.rows.now) (block_on show.now.rows.now rows.now (l + 1)))
        (FromAbove show.now.rows.now rows.now l (N.values d.old)) (N.values d.new) }
{
    let r = wide(rows[l]);
    let k = blocks::used(show.rows, r);
    let own = wide(show.own(k));
    let m = show.joins(k);
    let mut e = [N::NONE; SUMMARY_WIDTH];
    gather(show.rows, r, d, N::NONE, &mut e[..m]);
    clear(d, own + m);
    put_joins(&e[..m], &mut d[..][own + 1..own + 1 + m]);
}

// What estimates at level l of a place begin with on account of its cue: what was kept at the use
// that leads on, or 0 at the cue itself.
fn put_source<N: Number>(
    show: &Show,
    from: Place,
    rows: &[u32],
    l: usize,
    kept: &[N; KEPT],
    d: &mut [N; ESTIMATES],
)
    requires { Found show.now.rows.now show.now.index.now rows.now from × (l ≤ from.depth) }
    ensures { Merged (Source show.now.rows.now rows.now from l (N.values kept.now)) (N.values d.old) (N.values d.new) }
{
    if l < from.depth {
        put_kept(show, rows, l, kept, d);
    } else {
        put(d, wide(from.own), N::of(0));
    }
}

// Kept: the way down is two loops: no plainer as one, which takes an Option of a place and what was kept, and tests it at each level.

// Down the first levels of a place's own rows: from the estimates of the show to those of the whole
// show at the given level.
fn sink_shared<N: Number, P: Prices>(
    show: &Show,
    prices: &P,
    work: &[N],
    from: Place,
    rows: &[u32],
    shared: usize,
    kept: &[N; KEPT],
    d: &mut [N; ESTIMATES],
)
    requires { MaySearch N.inf N.values (P.price prices.now) show.now.rows.now show.now.index.now work.now rows.now from × (shared ≤ from.depth)
        × Risen N.inf (P.price prices.now) show.now.rows.now show.now.index.now rows.now from 0 (N.values kept.now) (N.values d.old) }
    ensures { TellsWhole N.inf (P.price prices.now) show.now.rows.now (copy_on show.now.rows.now show.now.index.now rows.now shared) from.cue
        (N.values d.new) }
{
    for l in 0..shared {
        enter(show, rows, l, d);
        put_source(show, from, rows, l + 1, kept, d);
        settle(show, prices, work, show.block_on(rows, l + 1), d);
    }
}

// Down to a place from one of its levels, past which no copy has the cue that the estimates are
// about.
fn sink_alone<N: Number, P: Prices>(
    show: &Show,
    prices: &P,
    work: &[N],
    to: Place,
    rows: &[u32],
    level: usize,
    d: &mut [N; ESTIMATES],
)
    requires { MaySearch N.inf N.values (P.price prices.now) show.now.rows.now show.now.index.now work.now rows.now to × (level ≤ to.depth) }
    ensures { Sunk N.inf (P.price prices.now) show.now.rows.now show.now.index.now rows.now level to.depth (N.values d.old) (N.values d.new) }
{
    for l in level..to.depth {
        enter(show, rows, l, d);
        settle(show, prices, work, show.block_on(rows, l + 1), d);
    }
}

// Both ways.

// How many rows two places have in common: so many levels below the show do they share a copy.
// Kept: lists with a length beside them, compared by a counted loop, by what may not change: the clause `Common` is of the first n and m rows of any two lists.
pub fn common(a: &[u32], n: usize, b: &[u32], m: usize) -> usize
    requires { (n ≤ length a.now) × (m ≤ length b.now) }
    ensures { Common a.now n b.now m result }
{
    let few = n.min(m);
    for i in 0..few {
        if a[i] != b[i] {
            return i;
        }
    }
    few
}

// Kept: a place and its rows apart, under a clause (`Found`): a struct of both would hold the show it speaks of, and a clause had to say that two hold one.

// The estimates of the copy of a place `to` from the cue of a place `from`, each with the rows that
// lead there. The work area tells the least weights between the joins of each block.
pub fn reach<N: Number, P: Prices>(
    show: &Show,
    prices: &P,
    from: Place,
    up: &[u32],
    to: Place,
    down: &[u32],
    work: &[N],
    kept: &mut [N; KEPT],
    d: &mut [N; ESTIMATES],
)
    requires { HasTable N.inf N.values (P.price prices.now) show.now.rows.now show.now.index.now work.now × Found show.now.rows.now show.now.index.now up.now from
        × Found show.now.rows.now show.now.index.now down.now to }
    ensures { Tells (P.price prices.now) (show_links (blocks_of show.now.rows.now)) N.inf from.cue to.cue (get_or (N.values d.new) to.own 0) }
{
    climb(show, prices, work, from, up, kept, d);
    let shared = common(up, from.depth, down, to.depth);
    sink_shared(show, prices, work, from, up, shared, kept, d);
    sink_alone(show, prices, work, to, down, shared, d);
}

// The fewest follow-ons.

// The summary of block k, behind those of the lower blocks.
// Kept: apart from `quickest::sum_block`, by what may not change: a summary is promised number by number (`summary_of`), sums by what they tell (`SumsTo`).
fn summarise_block(show: &Show, k: usize, d: &mut [u32; ESTIMATES], work: &mut [u32])
    requires { IsBlock show.now.rows.now k × (summary_size * k + summary_size ≤ length work.old) × Below (blocks_of show.now.rows.now) k work.old }
    ensures { work.new ≡ take (summary_size * k) work.old ++ (summary_of (blocks_of show.now.rows.now) k ++ drop
        (summary_size * k + summary_size) work.old) }
{
    let a = SUMMARY_SIZE * k;
    let e = a + SUMMARY_SIZE;
    work[a..e].fill(NO_CHAIN);
    for i in 0..show.joins(k) {
        row_from(show, &Steps, k, i, d, work);
    }
}

// Kept: a list of 16,384 numbers or more and no array, by the C interface: a caller may lend more, and what stands behind is promised to stay (`work_after`).

// The summaries of every block.
fn summarise_blocks(show: &Show, blocks: usize, work: &mut [u32])
    requires { (blocks ≡ length (blocks_of show.now.rows.now)) × (work_size ≤ length work.old) }
    ensures { work.new ≡ summaries_to (blocks_of show.now.rows.now) blocks ++ drop (summary_size * blocks) work.old }
{
    let mut d = [0u32; ESTIMATES];
    for k in 0..blocks {
        summarise_block(show, k, &mut d, work);
    }
}

// The work area: the summaries of every block, then zeros up to its 16,384 numbers.
pub fn summarise(show: &Show, work: &mut [u32])
    requires { work_size ≤ length work.old }
    ensures { work.new ≡ work_after (blocks_of show.now.rows.now) work.old }
{
    let blocks = show.last() + 1;
    summarise_blocks(show, blocks, work);
    let a = SUMMARY_SIZE * blocks;
    work[a..WORK_SIZE].fill(0);
}

// The fewest follow-ons from the cue of one place to the cue of another, each with the rows that
// lead there, or 4,294,967,295 for none. The work area has the summaries.
// Kept: a number for none, for an Option is no plainer: made here of the estimate, it would be told apart again by its one caller, `answers`, to make the answer.
pub fn fewest(show: &Show, from: Place, up: &[u32], to: Place, down: &[u32], work: &[u32]) -> u32
    requires { Found show.now.rows.now show.now.index.now up.now from × Found show.now.rows.now show.now.index.now down.now to × (take (summary_size * length (blocks_of show.now.rows.now)) work.now ≡ summaries (blocks_of show.now.rows.now)) }
    ensures { fewest (show_links (blocks_of show.now.rows.now)) (count (blocks_of show.now.rows.now)) from.cue to.cue ≡ distance result }
{
    let mut kept = [0u32; KEPT];
    let mut d = [0u32; ESTIMATES];
    reach(show, &Steps, from, up, to, down, work, &mut kept, &mut d);
    d[wide(to.own)]
}
