// The row behind a follow-on: of the link rows that join two cues in the unfolded show, the best one and the way down to the copy that it stands in,
// without unfolding.
//
// A link joins two cues only in a copy where both are to be seen, as own cue or join: in the deeper of the two copies that own them, or in one below
// it. `behind` begins there, with the two as cues of its block, and goes on from copy to copy, by the levels of `levels`, to the best row.
#![tactic(auto)]

ghost use Rattle.std.specs.Prelude.{◌≡◌, ◌≢◌, ◌+◌, ◌-◌, ◌≤◌, ◌==◌, true, false, length, position, unwrap_or, IfSome, MatchOption};
ghost use Rattle.model.specs.Limits.{max_blocks, max_rows, max_depth};
ghost use Rattle.model.specs.Rows.{row_count};
ghost use Rattle.verdicts.specs.Index.{links_from};
ghost use Rattle.blocks.specs.Places.{Found};
ghost use Rattle.copies.specs.Copies.{IsCopy};
ghost use Rattle.behind.specs.Leads.{row_between, IsFound, level_of, beats_level, stays_here, MayLead, UsesRow, IsLead, Tried, BestLead, MayFollow, Followed};
ghost use Rattle.behind.specs.Ways.{SeenAs, MayWalk, Walked, RowBehind, source_of, target_of};

use blocks::{Place, Show, from, join_at, to, used};
use copies::{Frame, descend};
use levels::{Table, levels, wins};
use std::ops::Range;

// Two cues of a block.
#[derive(Clone, Copy)]
pub struct Pair {
    pub block: usize,
    pub from: u32,
    pub to: u32,
}

// The use that leads on from a copy to the best link: the level of that link below it, the row of the use, from 0,
// and the joins of the used block that meet the two cues, from 0.
#[derive(Clone, Copy)]
pub struct Lead {
    pub level: u8,
    pub row: usize,
    pub from: usize,
    pub to: usize,
}

// The number of a link's row, from 1, and how many uses lead to the copy in which it stands.
#[derive(Clone, Copy)]
pub struct RowAt {
    pub row: u32,
    pub depth: usize,
}

// The number of the first of a block's link rows that leads from cue x to cue y.
fn own_row(rows: &[u32], links: Range<usize>, x: u32, y: u32) -> Option<u32>
    requires { (links.start ≤ links.end) × (links.end ≤ row_count rows.now) × (links.end ≤ max_rows) }
    ensures { IsFound result (row_between x y (links.start + 1) (links_from rows.now links.start (links.end - links.start))) }
{
    for r in links.start..links.end {
        if from(rows, r) == x && to(rows, r) == y {
            return Some((r + 1) as u32);
        }
    }
    None
}

// A level is better than that of the lead found before; 0 is none.
// Kept: 0 and no Option, for fixed memory: a level is a byte of the table, and an Option would be made of each byte that is read and told apart here.
#[tactic(auto, using(basics::proofs::Choices::ifs), unfolding(crate::specs::Leads::beats_level, crate::specs::Leads::level_of))]
fn beats(n: u8, old: Option<Lead>) -> bool
    requires { IfSome old (λ b. b.level ≢ 0) }
    ensures { result ≡ beats_level n (level_of old) }
{
    match old {
        _ if n == 0 => false,
        None => true,
        Some(old) => wins(n, old.level),
    }
}

// The lead, unless the way ends here: no use leads to a better row than the copy's own, if it has one.
#[tactic(auto, using(basics::proofs::Choices::ifs), unfolding(crate::specs::Leads::stays_here, crate::specs::Leads::level_of))]
fn onward(own: Option<u32>, lead: Option<Lead>) -> Option<Lead>
    requires { IfSome lead (λ b. (b.level ≢ 0) × (b.level ≤ max_blocks)) × IfSome own (λ r. r ≢ 0) }
    ensures { MatchOption result (stays_here (unwrap_or own 0) (level_of lead) ≡ true)
        (λ b. (lead ≡ Some b) × (stays_here (unwrap_or own 0) (level_of lead) ≡ false)) }
{
    let lead = lead?;
    let deeper = wins(lead.level + 1, 1);
    if own.is_some() && !deeper {
        return None;
    }
    Some(lead)
}

impl Pair {
    // The cues w and v of a block, leading inward to w or out from it.
    // Kept: `inward` is a Bool, for an enum is no plainer: each clause would turn it to the Bool that the definitions `source_of` and `target_of` read.
    #[tactic(auto, using(basics::proofs::Choices::ifs), unfolding(crate::specs::Ways::source_of, crate::specs::Ways::target_of))]
    fn new(block: usize, w: u32, v: u32, inward: bool) -> Pair
        ensures { (result.block ≡ block) × (result.from ≡ source_of inward w v) × (result.to ≡ target_of inward w v) }
    {
        let (from, to) = if inward { (v, w) } else { (w, v) };
        Pair { block, from, to }
    }

    // The better of a lead and the use of row r.
    fn try_use(self, show: &Show, table: &Table, r: usize, lead: Option<Lead>) -> Option<Lead>
        requires { MayLead show.now.rows.now table.now.levels self × UsesRow show.now.rows.now show.now.index.now self.block r
            × IsLead show.now.rows.now show.now.index.now self r lead }
        ensures { Tried show.now.rows.now show.now.index.now self r lead result }
    {
        let k = used(show.rows, r);
        let joins = show.joins(k);
        let Some(from) = join_at(show.rows, r, joins, self.from) else {
            return lead;
        };
        let Some(to) = join_at(show.rows, r, joins, self.to) else {
            return lead;
        };
        let level = table.level_at(k, from, to);
        if beats(level, lead) {
            return Some(Lead {
                level,
                row: r,
                from,
                to,
            });
        }
        lead
    }

    // The use that leads on to the best link below a copy of the block, from one of the cues to the other.
    fn best_use(self, show: &Show, table: &Table) -> Option<Lead>
        requires { MayLead show.now.rows.now table.now.levels self }
        ensures { BestLead show.now.rows.now show.now.index.now self result }
    {
        let rows = show.use_rows(self.block);
        let mut lead = None;
        for r in rows.start..rows.end {
            lead = self.try_use(show, table, r, lead);
        }
        lead
    }
}

impl Lead {
    // The two cues in the copy that it leads to.
    fn follow(self, show: &Show) -> Pair
        requires { MayFollow show.now.rows.now self }
        ensures { Followed show.now.rows.now self result }
    {
        let block = used(show.rows, self.row);
        let own = show.own(block);
        Pair {
            block,
            from: own + 1 + (self.from as u32),
            to: own + 1 + (self.to as u32),
        }
    }
}

// The best row between two cues of the copy that the first depth rows lead to. The rows of the uses that lead on from there are put behind them.
fn walk(show: &Show, table: &Table, start: Pair, depth: usize, rows: &mut [u32]) -> Option<RowAt>
    requires { MayWalk show.now.rows.now table.now.levels rows.old depth start }
    ensures { Walked show.now.rows.now show.now.index.now rows.old depth start rows.new result }
{
    let mut c = start;
    let mut d = depth;
    // Kept: no plainer as a `for` or `while let`: it counts nothing, and its exit answers with the row that the same turn found.
    loop {
        let own = own_row(show.rows, show.link_rows(c.block), c.from, c.to);
        let Some(lead) = onward(own, c.best_use(show, table)) else {
            return Some(RowAt {
                row: own?,
                depth: d,
            });
        };
        rows[d] = lead.row as u32;
        d += 1;
        c = lead.follow(show);
    }
}

// The place of number v among some.
fn met_at(met: &[u32], v: u32) -> Option<usize>
    ensures { result ≡ position (λ x. x == v) met.now }
{
    met.iter().position(|x| *x == v)
}

// The cue of a copy's block whose number is v, own or join.
fn seen(show: &Show, z: Frame, v: u32) -> Option<u32>
    requires { IsCopy show.now.rows.now z }
    ensures { MatchOption result (SeenAs show.now.rows.now z v 0) (λ c. (c ≢ 0) × SeenAs show.now.rows.now z v c) }
{
    let own = show.own(z.block);
    if z.base < v && v <= z.base + own {
        return Some(v - z.base);
    }
    let joins = show.joins(z.block);
    let j = met_at(&z.met[..joins], v)?;
    Some(own + 1 + (j as u32))
}

// The row behind the follow-on between the cue of a place and a cue v whose number is not larger, leading inward to the place or out from it. The rows of
// the uses that lead to the row's copy stand first in the list afterwards.
// Kept: `inward` is a Bool, for an enum is no plainer: each clause would turn it to the Bool that the definitions `source_of` and `target_of` read.
pub fn behind(show: &Show, place: Place, rows: &mut [u32], v: u32, inward: bool) -> Option<RowAt>
    requires { Found show.now.rows.now show.now.index.now rows.old place × (max_depth ≤ length rows.old) × (v ≤ place.cue) }
    ensures { RowBehind show.now.rows.now show.now.index.now rows.new (source_of inward place.cue v) (target_of inward place.cue v) result }
{
    let z = descend(show, place, rows);
    let c = seen(show, z, v)?;
    let mut table = Table::new();
    levels(show, &mut table, z.block);
    let start = Pair::new(z.block, place.own, c, inward);
    walk(show, &table, start, place.depth, rows)
}
