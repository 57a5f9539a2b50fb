// Estimates: what is known of the distances to the cues of a block so far (Bellman and Ford's
// tentative distances). They are put in, and lowered by one edge. An estimate stands at the number
// of its cue.
//
// An estimate is a `Number`: a count of follow-ons in 32 bits, or a sum of waits, in tenths of a
// second, in 64, since a chain of a large show may wait for longer than 32 bits can say.
//
// Of one estimate: `improve`, `put`. Of the cues that a use's row names: `put_met`, `gather`. Of
// all of them: `clear`.
#![tactic(auto)]

ghost use Rattle.std.specs.Prelude.{◌≡◌, ℕ, List, ◌≤◌, ◌<◌, ◌⊎◌, true, false, length, map, refl};
ghost use Rattle.std.proofs.Common.{rules};
ghost use Rattle.model.specs.Limits.{no_chain};
ghost use Rattle.distances.specs.Quickest.{no_sum};
ghost use Rattle.searches.specs.Rounds.{One, Round, Fell};
ghost use Rattle.searches.specs.Starts.{Nowhere, Cell, Meets, MetAt, Started, Merged, Gathered};
ghost use Rattle.searches.specs.Lines.{Least, Even};
ghost use Rattle.estimates.specs.Numbers.{Lesser, Falls, AtMost, all_same};

use model::limits::{MAX_JOINS, MAX_OWN};

// No estimate, and no chain between two joins.
pub const NO_CHAIN: u32 = model::limits::NO_CHAIN;

// No sum: no chain is known.
pub const NO_SUM: u64 = 18446744073709551615;

// An estimate for each cue of a block, own or join, and one at 0.
pub const ESTIMATES: usize = (MAX_OWN + MAX_JOINS + 1) as usize;

// The numbers that estimates are: `values` has what some of them say, and from `inf` on one says
// nothing. `lesser` and `falls` are apart from the store, so that the compiler needs no branch for
// them: which estimates fall is not foreseeable.
pub trait Number: Copy {
    ghost inf: { ℕ };

    ghost value: { Self → ℕ };

    ghost values: { List Self → List ℕ };

    ghost NONE: { Self };

    // No estimate.
    // Kept: a number and no Option, since it stands in array cells, and in the work area that is promised cell by cell (`work_after`).
    const NONE: Self;

    // A weight.
    fn of(w: u32) -> Self
        ensures { value result ≡ w };

    // The smaller of an estimate and the sum of an estimate x and a weight w.
    fn lowered(self, x: Self, w: Self) -> Self
        ensures { Least inf (value self) (value x) (value w) (value result) };

    // The same where several are lowered by one x.
    // Kept: two functions: of one edge a count is lowered the quickest by a sum in 64 bits, of eight at a time by one that stays in the width of an estimate.
    fn lowered_in_line(self, x: Self, w: Self) -> Self
        ensures { Least inf (value self) (value x) (value w) (value result) }
    {
        self.lowered(x, w)
    }

    // The lesser of two.
    // Kept: this, `falls` and `unlike` and no bound `Ord`: no plainer, as laws that tie `cmp` and `eq` to `value` would be cited at each comparison.
    fn lesser(self, y: Self) -> Self
        ensures { Lesser (value self) (value y) (value result) };

    // The first of two is the lesser.
    fn falls(self, y: Self) -> bool
        ensures { Falls (value self) (value y) result };

    // Whether two differ.
    fn unlike(self, y: Self) -> bool
        ensures { result ≡ false → value self ≡ value y };

    // Whether it is none, and so lowers no estimate.
    fn lowers_none(self, d: &[Self]) -> bool
        ensures { result ≡ true → (inf ≤ value self) × AtMost inf (values d.now) };

    ghost each: { (d : List Self) → values d ≡ map value d };

    ghost copied: { (x : Self) → Self.is_infallible x × ((y : Self) → Self.is_clone x y → y ≡ x) };

    ghost none: { value NONE ≡ inf };
}

impl Number for u32 {
    ghost inf = { no_chain };

    ghost value = { λ x. x };

    ghost values = { λ d. d };

    ghost NONE = { no_chain };

    const NONE: u32 = NO_CHAIN;

    fn of(w: u32) -> u32 {
        w
    }

    fn lowered(self, x: u32, w: u32) -> u32 {
        let steps = u64::from(x) + u64::from(w);
        steps.min(u64::from(self)) as u32
    }

    fn lowered_in_line(self, x: u32, w: u32) -> u32 {
        let steps = x.saturating_add(w);
        steps.min(self)
    }

    fn lesser(self, y: u32) -> u32 {
        self.min(y)
    }

    fn falls(self, y: u32) -> bool {
        self < y
    }

    fn unlike(self, y: u32) -> bool {
        self != y
    }

    fn lowers_none(self, _d: &[u32]) -> bool {
        self == NO_CHAIN
    }

    ghost each = { all_same };

    ghost copied = { Prim.search rules };

    ghost none = { refl };
}

// Kept: two impls with bodies that are alike: `rt ci` refuses an impl that a macro of the repository writes, and std has no trait for `saturating_add` to write one over.
impl Number for u64 {
    ghost inf = { no_sum };

    ghost value = { λ x. x };

    ghost values = { λ d. d };

    ghost NONE = { no_sum };

    const NONE: u64 = NO_SUM;

    fn of(w: u32) -> u64 {
        w as u64
    }

    fn lowered(self, x: u64, w: u64) -> u64 {
        let sum = x.saturating_add(w);
        sum.min(self)
    }

    fn lesser(self, y: u64) -> u64 {
        self.min(y)
    }

    fn falls(self, y: u64) -> bool {
        self < y
    }

    fn unlike(self, y: u64) -> bool {
        y != self
    }

    fn lowers_none(self, _d: &[u64]) -> bool {
        self == NO_SUM
    }

    ghost each = { all_same };

    ghost copied = { Prim.search rules };

    ghost none = { refl };
}

// One edge.
pub fn improve<N: Number>(d: &mut [N], u: usize, v: usize, w: N) -> bool
    requires { (u < length d.old) × (v < length d.old) }
    ensures { Round (One u v (N.value w)) (N.values d.old) result (N.values d.new) }
{
    let y = d[v];
    let z = y.lowered(d[u], w);
    d[v] = z;
    z.falls(y)
}

// An estimate to begin with, where it is less than the one there: says whether it is.
pub fn put<N: Number>(d: &mut [N], v: usize, z: N) -> bool
    requires { v < length d.old }
    ensures { Merged (Cell v (N.value z)) (N.values d.old) (N.values d.new) × Fell (N.values d.old) result (N.values d.new) }
{
    let y = d[v];
    d[v] = z.lesser(y);
    z.falls(y)
}

// Kept: below, r is a row's number and n a cue's, at which its estimate stands. No plainer as parts of the list beside them: a part would number its cues anew.

// Estimates to begin with at the first cues that row r names, one for each: says whether any is less
// than the one there.
pub fn put_met<N: Number>(xs: &[u32], r: usize, kept: &[N], d: &mut [N]) -> bool
    requires { Meets xs.now r (length kept.now) (length d.old) }
    ensures { Merged (MetAt xs.now r (N.values kept.now) 0 (length kept.now)) (N.values d.old) (N.values d.new)
        × Fell (N.values d.old) result (N.values d.new) }
{
    let mut fell = false;
    for i in 0..kept.len() {
        fell |= put(d, blocks::wide(blocks::column(xs, r, i)), kept[i]);
    }
    fell
}

// The estimates of the first cues that row r names, as many as e has places: says whether one of
// them is not x.
pub fn gather<N: Number>(xs: &[u32], r: usize, d: &[N], x: N, e: &mut [N]) -> bool
    requires { Meets xs.now r (length e.old) (length d.now) }
    ensures { Gathered xs.now r (N.values d.now) (length e.old) (N.values e.old) (N.values e.new)
        × Even result (N.value x) (N.values e.new) (length e.old) }
{
    let mut uneven = false;
    for i in 0..e.len() {
        let y = d[blocks::wide(blocks::column(xs, r, i))];
        e[i] = y;
        uneven |= y.unlike(x);
    }
    uneven
}

// No estimate yet at the cues up to n.
pub fn clear<N: Number>(d: &mut [N], n: usize)
    requires { n < length d.old }
    ensures { Started N.inf n Nowhere (N.values d.new) }
{
    d[..n + 1].fill(N::NONE);
}
