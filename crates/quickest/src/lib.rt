// The quickest way between two cues, without unfolding the show: the smallest sum of waits over all
// chains, in tenths of a second. It goes as the fewest follow-ons do in crate distance, with links
// that weigh their labels' waits, 0 too, and sums of 64 bits. What stands between the joins of a
// block is kept in the work area only while the question is answered.
//
// Others call `quickest`.
#![tactic(auto)]

ghost use Rattle.std.specs.Prelude.{◌≡◌, ◌+◌, ◌≤◌, length, replicate};
ghost use Rattle.model.specs.Limits.{work_size};
ghost use Rattle.model.specs.Blocks.{blocks_of, count};
ghost use Rattle.model.specs.Unfolding.{show_links};
ghost use Rattle.model.specs.Quickest.{quickest};
ghost use Rattle.model.specs.Questions.{cleared};
ghost use Rattle.shows.specs.Waits.{AreWaits};
ghost use Rattle.distances.specs.Tells.{told};
ghost use Rattle.distances.specs.Quickest.{no_sum};
ghost use Rattle.blocks.specs.Places.{Found};
ghost use Rattle.quickest.specs.Sums.{MaySum, SumsTo, HasSums};

use blocks::{Place, Show, wide};
use distance::{KEPT, reach, row_from};
use estimates::ESTIMATES;
use model::limits::WORK_SIZE;
use relax::Waits;

// No chain, and so no sum.
pub const NO_SUM: u64 = estimates::NO_SUM;

// The sums between the joins of block k, behind those of the lower blocks. Sums of its cues are kept
// in d.
fn sum_block(show: &Show, prices: &Waits, k: usize, d: &mut [u64; ESTIMATES], work: &mut [u64])
    requires { MaySum show.now.rows.now show.now.index.now prices.now.waits.now k work.old × SumsTo show.now.rows.now prices.now.waits.now k 0 work.old }
    ensures { SumsTo show.now.rows.now prices.now.waits.now (k + 1) 0 work.new }
{
    for i in 0..show.joins(k) {
        row_from(show, prices, k, i, d, work);
    }
}

// The sums between the joins of every block.
fn sum_blocks(show: &Show, prices: &Waits, d: &mut [u64; ESTIMATES], work: &mut [u64])
    requires { length work.old ≡ work_size }
    ensures { HasSums show.now.rows.now show.now.index.now prices.now.waits.now work.new }
{
    for k in 0..show.last() + 1 {
        sum_block(show, prices, k, d, work);
    }
}

// Kept: a place and its rows apart, under a clause (`Found`): a struct of both would hold the show it speaks of, and a clause had to say that two hold one.

// The smallest sum from the cue of one place to the cue of another, with a work area for just the
// sums between joins, which are gone afterwards.
fn search_in(
    show: &Show,
    prices: &Waits,
    from: Place,
    up: &[u32],
    to: Place,
    down: &[u32],
    work: &mut [u64],
) -> u64
    requires { Found show.now.rows.now show.now.index.now up.now from × Found show.now.rows.now show.now.index.now down.now to × (length work.old ≡ work_size) }
    ensures { (quickest prices.now.waits.now (show_links (blocks_of show.now.rows.now)) (count (blocks_of
        show.now.rows.now)) from.cue to.cue ≡ told no_sum result)
        × (work.new ≡ replicate work_size 0) }
{
    let mut kept = [0u64; KEPT];
    let mut d = [0u64; ESTIMATES];
    sum_blocks(show, prices, &mut d, work);
    reach(show, prices, from, up, to, down, work, &mut kept, &mut d);
    work.fill(0);
    d[wide(to.own)]
}

// The quickest way from the cue of one place to the cue of another, each with the rows that lead
// there, where labels wait so long: a sum in tenths of a second, or 18,446,744,073,709,551,615 for
// none. The first 16,384 numbers of the work area are 0 afterwards.
// Kept: a number for none, for an Option is no plainer: made here of the estimate, it would be told apart again by its one caller, `answers`, to make the answer.
// Kept: a list of 16,384 numbers or more and no array, by the C interface: a caller may lend more, and what stands behind is promised to stay (`cleared`).
pub fn quickest(
    show: &Show,
    waits: &[u32],
    from: Place,
    up: &[u32],
    to: Place,
    down: &[u32],
    work: &mut [u64],
) -> u64
    requires { Found show.now.rows.now show.now.index.now up.now from × Found show.now.rows.now show.now.index.now down.now to × AreWaits waits.now × (work_size ≤ length work.old) }
    ensures { (quickest waits.now (show_links (blocks_of show.now.rows.now)) (count (blocks_of
        show.now.rows.now)) from.cue to.cue ≡ told no_sum result)
        × (work.new ≡ cleared work.old) }
{
    let prices = Waits { waits };
    search_in(show, &prices, from, up, to, down, &mut work[0..WORK_SIZE])
}
