// Where a cue of the show is, and which number a path and an own cue have. Both go down through copies of blocks, and a copy numbers its
// own cues first, then the cues of its uses in order: one function is for a copy, another walks its uses, and each calls the other.
//
// `find` gives a cue's place with the rows of the uses that lead there, `locate` with the path, `number` the number of a path and an own
// cue.
#![tactic(auto)]

ghost use Rattle.std.specs.Prelude.{◌≡◌, ◌+◌, ◌-◌, ◌≤◌, ◌<◌, length, get_or, drop, unwrap_or, IfSome};
ghost use Rattle.model.specs.Limits.{max_total, max_depth};
ghost use Rattle.model.specs.Blocks.{total, blocks_of, last_block, count};
ghost use Rattle.model.specs.Paths.{own_number, place_in};
ghost use Rattle.model.specs.Lists.{overwrite};
ghost use Rattle.model.specs.Questions.{show_number};
ghost use Rattle.blocks.specs.Places.{Takes, Found};
ghost use Rattle.paths.specs.Locating.{uses_of, cues_of, in_copy, in_uses, MayLocate, Reached, place_of, UseFrom, Down, Positions, IsReached};
ghost use Rattle.paths.specs.Numbering.{from_copy, from_uses, MayNumber};

use blocks::{Place, Show, used, wide};
use model::limits::MAX_DEPTH;

// Where a way down ends: its depth, and the block and the own cue there.
#[derive(Drop)]
struct End {
    depth: usize,
    block: usize,
    own: u32,
}

// Locating.

// Cue n, which is none of the first cues, so many of them, counted from behind these.
fn past(n: u32, many: u32) -> u32
    requires { many < n }
    ensures { result ≡ n - many }
{
    n - many
}

// Cue n of a copy of block k. The rows of the uses on the way there follow those before it, so many of them, in a list.
#[cycle(locate_copy_locate_uses)]
fn locate_copy(show: &Show, k: usize, n: u32, depth: usize, rows: &mut [u32]) -> End
    requires { MayLocate show.now.rows.now show.now.index.now rows.old k (total (blocks_of show.now.rows.now) k) n depth }
    ensures { Reached show.now.rows.now show.now.index.now k depth (in_copy show.now.rows.now k n) rows.old result.depth result.block result.own rows.new }
{
    let own = show.own(k);
    if n <= own {
        return End {
            depth: depth,
            block: k,
            own: n,
        };
    }
    locate_uses(show, k, past(n, own), depth, rows)
}

// Cue n of the uses of block k, the first cue of its first use being cue 1.
#[cycle(locate_copy_locate_uses)]
fn locate_uses(show: &Show, k: usize, n: u32, depth: usize, rows: &mut [u32]) -> End
    requires { MayLocate show.now.rows.now show.now.index.now rows.old k (cues_of show.now.rows.now (uses_of show.now.rows.now k)) n depth }
    ensures { Reached show.now.rows.now show.now.index.now k depth (in_uses show.now.rows.now k n) rows.old result.depth result.block result.own rows.new }
{
    let uses = show.use_rows(k);
    let mut rest = n;
    for r in uses.start..uses.end {
        let u = used(show.rows, r);
        let size = show.total(u);
        if rest <= size {
            rows[depth] = r as u32;
            return locate_copy(show, u, rest, depth + 1, rows);
        }
        rest = past(rest, size);
    }
    unreachable!()
}

// Where cue n is, and at the beginning of a list the rows of the uses that lead there.
fn reach(show: &Show, n: u32, rows: &mut [u32]) -> Place
    requires { (1 ≤ n) × (n ≤ count (blocks_of show.now.rows.now)) × (max_depth ≤ length rows.old) }
    ensures { IsReached show.now.rows.now show.now.index.now n rows.old result rows.new }
{
    let last = show.last();
    let end = locate_copy(show, last, n, 0, rows);
    Place {
        cue: n,
        depth: end.depth,
        block: end.block,
        own: end.own,
    }
}

// Where cue v is; the rows of the uses that lead there go to a list that is long enough for every path.
pub fn find(show: &Show, v: u32, rows: &mut [u32; MAX_DEPTH]) -> Place
    requires { (1 ≤ v) × (v ≤ count (blocks_of show.now.rows.now)) }
    ensures { (result.cue ≡ v) × Found show.now.rows.now show.now.index.now rows.new result × (length rows.new ≡ max_depth) }
{
    reach(show, v, rows)
}

// The position of row r among the uses of block k, the first of which has position 1.
fn position(show: &Show, k: usize, r: usize) -> u32
    requires { UseFrom show.now.rows.now show.now.index.now k r }
    ensures { Takes show.now.index.now k result r }
{
    let uses = show.use_rows(k);
    (r - uses.start + 1) as u32
}

// The rows of the uses on a way down turned into their positions: the path.
// Kept: the depth beside the list, by what may not change: the clauses `Down` and `Positions` are of the first rows of a list that has room for every path.
pub fn positions(show: &Show, depth: usize, rows: &mut [u32])
    requires { Down show.now.rows.now show.now.index.now rows.old depth }
    ensures { Positions show.now.rows.now show.now.index.now rows.old depth rows.new }
{
    let mut k = show.last();
    for l in 0..depth {
        let r = wide(rows[l]);
        rows[l] = position(show, k, r);
        k = used(show.rows, r);
    }
}

// Where cue n of the show is. The path goes to the beginning of the lent list, the rest of which stays as it was.
pub fn locate(show: &Show, n: u32, path: &mut [u32]) -> Place
    requires { (1 ≤ n) × (n ≤ count (blocks_of show.now.rows.now)) × (max_depth ≤ length path.old) }
    ensures value { result ≡ place_of n (place_in (blocks_of show.now.rows.now) (last_block (blocks_of show.now.rows.now)) n) }
    ensures path_after { path.new ≡ overwrite (place_in (blocks_of show.now.rows.now) (last_block (blocks_of show.now.rows.now)) n).path path.old }
{
    let place = reach(show, n, path);
    positions(show, place.depth, path);
    place
}

// Numbering.

// The number of own cue c of a copy after base that has so many own cues, if it has such a one.
fn own_number(own: u32, base: u32, c: u32) -> Option<u32>
    requires { base + own ≤ max_total }
    ensures value { unwrap_or result 0 ≡ own_number own base c }
    ensures some { IfSome result (λ n. 0 < n) }
{
    if c < 1 {
        return None;
    }
    if own < c {
        return None;
    }
    Some(base + c)
}

// The number of own cue c at the end of a path from the copy of block k after base.
#[cycle(number_copy_number_uses)]
fn number_copy(show: &Show, k: usize, base: u32, path: &[u32], c: u32) -> Option<u32>
    requires { MayNumber show.now.rows.now show.now.index.now k (total (blocks_of show.now.rows.now) k) base }
    ensures value { unwrap_or result 0 ≡ from_copy show.now.rows.now k base path.now c }
    ensures some { IfSome result (λ n. 0 < n) }
{
    let own = show.own(k);
    match path.split_first() {
        Some((step, rest)) => number_uses(show, k, base + own, *step, rest, c),
        None => own_number(own, base, c),
    }
}

// The same where one step before the path leads to a use of block k, the first of which begins after base.
#[cycle(number_copy_number_uses)]
fn number_uses(show: &Show, k: usize, base: u32, step: u32, path: &[u32], c: u32) -> Option<u32>
    requires { MayNumber show.now.rows.now show.now.index.now k (cues_of show.now.rows.now (uses_of show.now.rows.now k)) base }
    ensures value { unwrap_or result 0 ≡ from_uses show.now.rows.now k base step path.now c }
    ensures some { IfSome result (λ n. 0 < n) }
{
    let uses = show.use_rows(k);
    let first = uses.start;
    let end = uses.end;
    let p = wide(step);
    if p < 1 {
        return None;
    }
    if end - first < p {
        return None;
    }
    let at = first + (p - 1);
    let mut b = base;
    for r in first..at {
        b += show.total(used(show.rows, r));
    }
    number_copy(show, used(show.rows, at), b, path, c)
}

// The number of a path and an own cue; none if a step is no use, or the copy at the end has no such own cue, or the path is too long.
pub fn number(show: &Show, path: &[u32], own: u32) -> Option<u32>
    ensures value { unwrap_or result 0 ≡ show_number (blocks_of show.now.rows.now) path.now own }
    ensures some { IfSome result (λ n. 0 < n) }
{
    let last = show.last();
    number_copy(show, last, 0, path, own)
}
