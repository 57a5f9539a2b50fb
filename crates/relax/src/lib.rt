// Bellman-Ford over one block: estimates of its cues are relaxed over its links, notes left out,
// and over the numbers between the joins of the blocks that it uses, until a whole round changes
// nothing. What a link weighs is the question's: a step, or as long as its label waits, 0 too. A
// round that changes an estimate lowers it, so that links that weigh 0 do no harm.
//
// Others call `clear_block`, `settle` and `from_cue`. Up to `relax_use` this is about one use: two
// or three cues edge by edge, more of them eight estimates at a time.
#![tactic(auto)]

ghost use Rattle.std.specs.Prelude.{◌≡◌, ℕ, ◌+◌, ◌*◌, ◌≤◌, ◌<◌, length};
ghost use Rattle.model.specs.Limits.{max_followed, summary_size, summary_width};
ghost use Rattle.model.specs.Blocks.{blocks_of, block_at};
ghost use Rattle.shows.specs.Waits.{AreWaits};
ghost use Rattle.distances.specs.Walks.{Price, each-one, Linked};
ghost use Rattle.distances.specs.Quickest.{priced};
ghost use Rattle.verdicts.specs.Index.{link_at, use_at};
ghost use Rattle.blocks.specs.Loaded.{IsBlock, UseRow};
ghost use Rattle.searches.specs.Rounds.{Round};
ghost use Rattle.searches.specs.Starts.{Nowhere, Meets, Started};
ghost use Rattle.searches.specs.Lines.{Line, Lines, Alike};
ghost use Rattle.searches.specs.Edges.{Mesh, Between, LinkEnds, Weighs, LinkEdge, UseEdge, UseEdges, BlockEdge, cue_count, SettledOver, Only, SpreadIn, MaySettle};

use blocks::Show;
use estimates::{ESTIMATES, Number, clear, gather, improve, put, put_met};
use model::limits::{MAX_FOLLOWED, SUMMARY_SIZE, SUMMARY_WIDTH};

// Of rounds, the first being 0, every second one: those whose number has all these bits.
const EVERY_SECOND: u32 = 1;

// What the links that are followed weigh, by their labels.
pub trait Prices {
    ghost price: { Self → Price };

    // How often a round goes through the uses of a block from the last to the first: where its number has all these bits. Each promise here holds whatever they
    // are, so that the trait promises nothing of them.
    // Kept: a function and no constant: of a trait that has one there is no `&dyn Prices`.
    fn backward() -> u32
    where
        Self: Sized,
    {
        EVERY_SECOND
    }

    fn weight(&self, label: u32) -> u32
        requires { label ≤ max_followed }
        ensures { Weighs (price self.now) label result };

    ghost followed: { (p : Self) (label w : ℕ) → price p label w → label ≤ max_followed };
}

// Each link is a step.
#[derive(Clone, Copy)]
pub struct Steps;

impl Steps {
    // One round in thirty-two: with none of them a chain of uses in a bad order costs a round for each cue; with every second one, a chain that goes up in
    // many runs takes twice the rounds (docs/DECISIONS.md).
    pub const BACKWARD: u32 = 31;
}

impl Prices for Steps {
    ghost price = { λ _. each-one };

    fn backward() -> u32
        ensures { result ≡ 31 }
    {
        Steps::BACKWARD
    }

    fn weight(&self, _label: u32) -> u32 {
        1
    }

    ghost followed = { λ _ _ _ h. h.0 };
}

// A link waits as long as its label does.
#[derive(Clone, Copy)]
pub struct Waits<'a> {
    pub waits: &'a [u32],
    ghost right: { AreWaits waits.now },
}

impl<'a> Waits<'a> {
    // Every second round: a show of 1,024 rows that was made against one direction took nearly three times as long without (docs/DECISIONS.md).
    pub const BACKWARD: u32 = EVERY_SECOND;
}

impl<'a> Prices for Waits<'a> {
    ghost price = { λ p. priced p.waits.now };

    fn backward() -> u32
        ensures { result ≡ 1 }
    {
        Waits::BACKWARD
    }

    fn weight(&self, label: u32) -> u32 {
        self.waits[blocks::wide(label)]
    }

    ghost followed = { λ _ _ _ h. h.0 };
}

// Eight estimates, lowered by an estimate x and eight weights.
fn lower_line<N: Number>(weights: &[N; SUMMARY_WIDTH], x: N, e: &mut [N; SUMMARY_WIDTH])
    ensures { Line N.inf (N.values weights.now) 0 (N.value x) (N.values e.old) summary_width (N.values e.new) }
{
    for j in 0..SUMMARY_WIDTH {
        e[j] = e[j].lowered_in_line(x, weights[j]);
    }
}

// The same, where x is an estimate at all.
fn lower_by<N: Number>(weights: &[N; SUMMARY_WIDTH], x: N, e: &mut [N; SUMMARY_WIDTH])
    ensures { Line N.inf (N.values weights.now) 0 (N.value x) (N.values e.old) summary_width (N.values e.new) }
{
    if !x.lowers_none(e) {
        lower_line(weights, x, e);
    }
}

// Eight estimates, lowered by the estimates g and a line of eight weights for each of these.
fn lower_lines<N: Number>(
    weights: &[N; SUMMARY_SIZE],
    g: &[N; SUMMARY_WIDTH],
    e: &mut [N; SUMMARY_WIDTH],
)
    ensures { Lines N.inf summary_width (N.values weights.now) 0 (N.values g.now) (N.values e.old) summary_width (N.values e.new) }
{
    let (lines, _) = weights.as_chunks::<SUMMARY_WIDTH>();
    for i in 0..SUMMARY_WIDTH {
        lower_by(&lines[i], g[i], e);
    }
}

// Whether eight estimates differ from eight others.
// Kept: by hand, for `!=` is no plainer: what it says of two `Number`s would have to be tied to their values, where `unlike` says it.
fn differ<N: Number>(a: &[N; SUMMARY_WIDTH], b: &[N; SUMMARY_WIDTH]) -> bool
    ensures { Alike result (N.values a.now) (N.values b.now) summary_width }
{
    let mut found = false;
    for i in 0..SUMMARY_WIDTH {
        found |= a[i].unlike(b[i]);
    }
    found
}

// Kept: below, r is a row's number, and m, i and j count the cues that it names: no places in the list beside them, where estimates stand at cues' numbers.

// The edges of a use whose row r names m cues, all from the estimates before: eight at a time. The
// weights stand in eight lines; what stands there beyond the m first of a line is of no account.
// Where the cues have all the same estimate, or none yet, there is nothing to do, which one test
// says.
#[inline(never)]
fn relax_many<N: Number>(
    xs: &[u32],
    weights: &[N; SUMMARY_SIZE],
    r: usize,
    m: usize,
    d: &mut [N],
) -> bool
    requires { Meets xs.now r m (length d.old) × (0 < m) }
    ensures { Round (Mesh xs.now (N.values weights.now) r 0 m) (N.values d.old) result (N.values d.new) }
{
    let mut old = [N::NONE; SUMMARY_WIDTH];
    let first = d[blocks::wide(blocks::column(xs, r, 0))];
    if !gather(xs, r, d, first, &mut old[..m]) {
        return false;
    }
    let mut new = old;
    lower_lines(weights, &old, &mut new);
    if !differ(&old, &new) {
        return false;
    }
    put_met(xs, r, &new[..m], d)
}

// The edges of a use between two of the cues that it names, in its columns i and j, there and back.
fn relax_between<N: Number>(
    xs: &[u32],
    weights: &[N; SUMMARY_SIZE],
    r: usize,
    i: usize,
    j: usize,
    d: &mut [N],
) -> bool
    requires { Meets xs.now r (j + 1) (length d.old) × (i < j) }
    ensures { Round (Between xs.now (N.values weights.now) r 0 i j) (N.values d.old) result (N.values d.new) }
{
    let a = blocks::wide(blocks::column(xs, r, i));
    let b = blocks::wide(blocks::column(xs, r, j));
    let c = improve(d, a, b, weights[SUMMARY_WIDTH * i + j]);
    let e = improve(d, b, a, weights[SUMMARY_WIDTH * j + i]);
    c | e
}

// The edges of a use that names three cues.
#[inline(never)]
fn relax_three<N: Number>(xs: &[u32], weights: &[N; SUMMARY_SIZE], r: usize, d: &mut [N]) -> bool
    requires { Meets xs.now r 3 (length d.old) }
    ensures { Round (Mesh xs.now (N.values weights.now) r 0 3) (N.values d.old) result (N.values d.new) }
{
    let a = relax_between(xs, weights, r, 0, 1, d);
    let b = relax_between(xs, weights, r, 0, 2, d);
    let c = relax_between(xs, weights, r, 1, 2, d);
    a | b | c
}

// The edges of a use that names m cues; a cue's edge to itself improves nothing. Inlined but
// for the rarer cases, since most uses have two joins, and both loops over uses come to it.
#[inline(always)]
fn relax_use<N: Number>(
    xs: &[u32],
    weights: &[N; SUMMARY_SIZE],
    r: usize,
    m: usize,
    d: &mut [N],
) -> bool
    requires { Meets xs.now r m (length d.old) }
    ensures { Round (Mesh xs.now (N.values weights.now) r 0 m) (N.values d.old) result (N.values d.new) }
{
    match m {
        0 | 1 => false,
        2 => relax_between(xs, weights, r, 0, 1, d),
        3 => relax_three(xs, weights, r, d),
        _ => relax_many(xs, weights, r, m, d),
    }
}

// The link of row r, if it is followed: a note is not.
pub fn relax_link<N: Number, P: Prices>(xs: &[u32], prices: &P, r: usize, d: &mut [N]) -> bool
    requires { LinkEnds xs.now r (length d.old) }
    ensures { Round (LinkEdge (P.price prices.now) (link_at xs.now r)) (N.values d.old) result (N.values d.new) }
{
    let label = blocks::label(xs, r);
    let followed = label <= MAX_FOLLOWED;
    if !followed {
        return false;
    }
    let u = blocks::wide(blocks::from(xs, r));
    let v = blocks::wide(blocks::to(xs, r));
    improve(d, u, v, N::of(prices.weight(label)))
}

// Kept: show, block and work area apart, under one clause (`MaySettle`): no plainer as a struct, which each level and row of the work area would make anew.

// The links of block k. Not inlined: within other code the place of its jumps hangs on what stands
// around them, and its loop took up to 1.4 times as long.
#[inline(never)]
fn relax_links<N: Number, P: Prices>(
    show: &Show,
    prices: &P,
    k: usize,
    d: &mut [N; ESTIMATES],
) -> bool
    requires { IsBlock show.now.rows.now k }
    ensures { Round (Linked (P.price prices.now) (block_at (blocks_of show.now.rows.now) k).links) (N.values d.old) result (N.values d.new) }
{
    let rows = show.link_rows(k);
    let mut changed = false;
    for r in rows.start..rows.end {
        changed |= relax_link(show.rows, prices, r, d);
    }
    changed
}

// The use of row r, by the numbers between the joins of the block that it names.
#[inline(always)]
fn relax_row<N: Number>(show: &Show, work: &[N], r: usize, d: &mut [N; ESTIMATES]) -> bool
    requires { (k : ℕ) × UseRow show.now.rows.now k r × (summary_size * k ≤ length work.now) }
    ensures { Round (UseEdge (blocks_of show.now.rows.now) (N.values work.now) (use_at show.now.rows.now (blocks_of show.now.rows.now) r)) (N.values d.old) result (N.values d.new) }
{
    let b = blocks::used(show.rows, r);
    let m = show.joins(b);
    let (numbers, _) = work.as_chunks::<SUMMARY_SIZE>();
    relax_use(show.rows, &numbers[b], r, m, d)
}

// Kept: two loops: no plainer as one, which has to test the order at each use, or takes an iterator and says by clauses what it yields and that it ends.

// The uses of block k, from the first to the last.
fn relax_uses<N: Number>(show: &Show, work: &[N], k: usize, d: &mut [N; ESTIMATES]) -> bool
    requires { MaySettle show.now.rows.now show.now.index.now k work.now }
    ensures { Round (UseEdges (blocks_of show.now.rows.now) (N.values work.now) (block_at (blocks_of show.now.rows.now) k).uses) (N.values d.old) result (N.values d.new) }
{
    let rows = show.use_rows(k);
    let mut changed = false;
    for r in rows.start..rows.end {
        changed |= relax_row(show, work, r, d);
    }
    changed
}

// The same from the last use to the first.
fn relax_uses_back<N: Number>(show: &Show, work: &[N], k: usize, d: &mut [N; ESTIMATES]) -> bool
    requires { MaySettle show.now.rows.now show.now.index.now k work.now }
    ensures { Round (UseEdges (blocks_of show.now.rows.now) (N.values work.now) (block_at (blocks_of show.now.rows.now) k).uses) (N.values d.old) result (N.values d.new) }
{
    let rows = show.use_rows(k);
    let mut changed = false;
    for r in (rows.start..rows.end).rev() {
        changed |= relax_row(show, work, r, d);
    }
    changed
}

// The order in which a round goes through the uses of a block.
#[derive(Clone, Copy)]
enum Order {
    Forward,
    Backward,
}

impl Order {
    // The order of a round, by its number. Each promise here holds in either.
    fn of<P: Prices>(round: u32) -> Order {
        if round & P::backward() == P::backward() {
            Order::Backward
        } else {
            Order::Forward
        }
    }
}

// The uses of block k in an order.
fn relax_uses_in<N: Number>(
    show: &Show,
    work: &[N],
    k: usize,
    order: Order,
    d: &mut [N; ESTIMATES],
) -> bool
    requires { MaySettle show.now.rows.now show.now.index.now k work.now }
    ensures { Round (UseEdges (blocks_of show.now.rows.now) (N.values work.now) (block_at (blocks_of show.now.rows.now) k).uses) (N.values d.old) result (N.values d.new) }
{
    match order {
        Order::Forward => relax_uses(show, work, k, d),
        Order::Backward => relax_uses_back(show, work, k, d),
    }
}

// All edges of block k, each once, its uses in an order.
fn relax_block<N: Number, P: Prices>(
    show: &Show,
    prices: &P,
    work: &[N],
    k: usize,
    order: Order,
    d: &mut [N; ESTIMATES],
) -> bool
    requires { MaySettle show.now.rows.now show.now.index.now k work.now }
    ensures { Round (BlockEdge (P.price prices.now) (blocks_of show.now.rows.now) (N.values work.now) k) (N.values d.old) result (N.values d.new) }
{
    let a = relax_links(show, prices, k, d);
    let c = relax_uses_in(show, work, k, order, d);
    a | c
}

// Estimates of block k until a whole round changes nothing. Some rounds go through the uses from the
// last to the first: in one direction only, uses in a bad order would cost a round for each cue.
// Kept: a `while` and no `for`: how many rounds there are is what the loop finds out. It ends since the sum of the estimates falls.
pub fn settle<N: Number, P: Prices>(
    show: &Show,
    prices: &P,
    work: &[N],
    k: usize,
    d: &mut [N; ESTIMATES],
)
    requires { MaySettle show.now.rows.now show.now.index.now k work.now }
    ensures { SettledOver (BlockEdge (P.price prices.now) (blocks_of show.now.rows.now) (N.values work.now) k) (N.values d.old) (N.values d.new) }
{
    let mut order = Order::Forward;
    let mut round = 0u32;
    'rounds: while relax_block(show, prices, work, k, order, d) {
        round = round.wrapping_add(1);
        order = Order::of::<P>(round);
    }
}

// No estimate yet at the cues of block k.
pub fn clear_block<N: Number>(show: &Show, k: usize, d: &mut [N; ESTIMATES])
    requires { IsBlock show.now.rows.now k }
    ensures { Started N.inf (cue_count (blocks_of show.now.rows.now) k) Nowhere (N.values d.new) }
{
    let own = blocks::wide(show.own(k));
    clear(d, own + show.joins(k));
}

// The estimates of block k from its cue c.
pub fn from_cue<N: Number, P: Prices>(
    show: &Show,
    prices: &P,
    work: &[N],
    k: usize,
    c: usize,
    d: &mut [N; ESTIMATES],
)
    requires { MaySettle show.now.rows.now show.now.index.now k work.now × (c ≤ cue_count (blocks_of show.now.rows.now) k) }
    ensures { SpreadIn N.inf (P.price prices.now) (blocks_of show.now.rows.now) (N.values work.now) k
        (Only c) (N.values d.new) }
{
    clear_block(show, k, d);
    put(d, c, N::of(0));
    settle(show, prices, work, k, d);
}

#[cfg(test)]
mod tests {
    use super::*;

    // Prices that say nothing of rounds.
    struct Bare;

    impl Prices for Bare {
        ghost price = { λ _. each-one };

        fn weight(&self, _label: u32) -> u32 {
            Steps.weight(0)
        }

        ghost followed = { λ _ _ _ h. h.0 };
    }

    // What a link weighs by prices of whatever type.
    fn weigh(prices: &dyn Prices, label: u32) -> u32
        requires { label ≤ max_followed }
        ensures { Weighs (price prices.now) label result }
    {
        prices.weight(label)
    }

    #[test]
    fn weighs_by_dyn(rt: HostRuntime) {
        assert_eq!(rt; weigh(&Steps, 7), 1);
        assert_eq!(rt; weigh(&Bare, MAX_FOLLOWED), 1);
    }

    #[test]
    fn rounds_backward(rt: HostRuntime) {
        assert_eq!(rt; (Steps::backward(), Steps::BACKWARD), (31, 31));
        assert_eq!(rt; (Waits::backward(), Waits::BACKWARD), (1, 1));
        assert_eq!(rt; Bare::backward(), 1);
    }
}
