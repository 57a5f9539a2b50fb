// The list of the cues linked to a cue, page by page, without unfolding.
//
// `list` writes the cues greater than n that links lead to from the cue of a place, or inward from
// which they lead to it, as many as the page has room for; `list_labels` those that links with
// labels lo to hi lead to. Both go down to the copy that owns the cue, mark which of its cues are
// linked to it, and walk the copies inside in the order of their numbers; records of `neighbours` say
// which of them have a cue to give.
#![tactic(auto)]

ghost use Rattle.std.specs.Prelude.{◌≡◌, [], ◌∷◌, ◌+◌, ◌*◌, ◌-◌, ◌≤◌, ◌<◌, ◌/◌, min, length};
ghost use Rattle.model.specs.Limits.{max_joins, max_own, max_blocks, max_total};
ghost use Rattle.model.specs.Unfolding.{show_links};
ghost use Rattle.model.specs.Blocks.{own_of, count, blocks_of};
ghost use Rattle.blocks.specs.Loaded.{UseRow};
ghost use Rattle.blocks.specs.Places.{Found};
ghost use Rattle.neighbours.specs.Picks.{wanted};
ghost use Rattle.neighbours.specs.Near.{KnownOwn, Table, RecordsReady};
ghost use Rattle.neighbours.specs.Records.{block_size, bits_at, HasRecord, HasBlock};
ghost use Rattle.lists.specs.Pages.{HasRoom, Gives};
ghost use Rattle.lists.specs.Walks.{step_list, own_list, MayVisit, MayEnter, Walked, UsesWalked, Entered, Door};
ghost use Rattle.lists.specs.Joins.{lesser, Next, JoinsDone};
ghost use Rattle.lists.specs.Answer.{linked_cues, labelled_cues, IsListed, MayAnswer, Answered};

use blocks::{JOINS, Place, Show, join_at, used, wide};
use copies::{Frame, descend};
use model::Listed;
use model::limits::{MAX_BLOCKS, MAX_LABEL, MAX_TOTAL};
use neighbours::{Ask, BITS, BLOCK, INSIDE, Question, RECORD, bit};

// A table of the records of all 128 blocks, and a short one of the blocks below LOW.
const TABLE: usize = BLOCK * MAX_BLOCKS as usize;

const LOW: usize = 32;

const LOW_TABLE: usize = BLOCK * LOW;

// The most cues of a show.
const MAX_TOTAL_64: usize = MAX_TOTAL as usize;

// A copy that the walk comes to, whatever its joins meet: its block, the number that its own cues
// follow, and the cue of it whose links are listed.
#[derive(Clone, Copy)]
pub struct Visit {
    pub block: usize,
    pub base: u32,
    pub cue: u32,
}

// The copy inside such a one that the use of a row makes: the block that has the use, the row, the
// number that the cues of the copy follow, and the cue of the block whose links are listed.
#[derive(Clone, Copy)]
pub struct Inner {
    pub block: usize,
    pub row: usize,
    pub base: u32,
    pub cue: u32,
}

// ---- the page

// One cue more for the page, w being how many it was given, or one above the room.
// Kept: page and w, here and below, are no plainer as one struct: it would have the question's room too (`HasRoom`, `Gives`), with a clause that they agree.
// And one above the room says that there is more: no plainer as an Option, since a w that is full is compared with the room alike.
fn give(room: usize, page: &mut [u32], w: usize, u: u32) -> usize
    requires { (room ≤ length page.old) × (room ≤ max_total) }
    ensures { Gives room page.old w (u ∷ []) page.new result }
{
    if w < room {
        page[w] = u;
        return w + 1;
    }
    room + 1
}

// The same for a cue that is marked and high enough.
fn give_if(q: Ask, page: &mut [u32], w: usize, flag: u8, u: u32) -> usize
    requires { HasRoom q page.old w }
    ensures { Gives q.room page.old w (step_list q flag u) page.new result }
{
    if flag == 1 && q.after < u {
        return give(q.room, page, w, u);
    }
    w
}

// ---- own cues

// The first cue behind the byte that has the bit of cue d, among own own cues.
fn next_byte(d: usize, own: usize) -> usize
    requires { (1 ≤ d) × (d ≤ own) × (own ≤ max_own) }
    ensures { (d < result) × (result ≤ own + 1) × (result ≤ 8 * ((d - 1) / 8) + 9) }
{
    let e = 8 * ((d - 1) / 8) + 9;
    e.min(own + 1)
}

// The same for the own cues of a copy whose bits are set in a record.
// Kept: byte by byte in two counted loops misses the speed bar (race, list_out_star_first_4096: 38.2 us before, 46.6 so, all inlined).
fn give_own(q: Ask, s: &[u8], own: usize, base: u32, page: &mut [u32], w: usize) -> usize
    requires { HasRecord s.now 0 × (own ≤ max_own) × (base + own ≤ max_total) × HasRoom q page.old w }
    ensures { Gives q.room page.old w (own_list q s.now bits_at base own) page.new result }
{
    let mut d = 1;
    let mut g = w;
    while d <= own {
        let i = d - 1;
        let b = s[BITS + i / 8];
        if b == 0 {
            d = next_byte(d, own);
            continue;
        }
        let flag = bit(b, i % 8);
        g = give_if(q, page, g, flag, base + (d as u32));
        d += 1;
    }
    g
}

// Gives the page the own cues of a copy that the cue is linked to, by the record of the cue.
fn give_block(question: &Question, s: &[u8], y: Visit, page: &mut [u32], w: usize) -> usize
    requires { KnownOwn question.now.ask (blocks_of question.now.show.rows.now) s.now 0 y.block y.cue
        × HasRecord s.now 0
        × MayVisit question.now.ask question.now.show.rows.now y page.old w }
    ensures { Walked question.now.ask question.now.show.rows.now y y.base page.old w (own_of (blocks_of question.now.show.rows.now) y.block) page.new result }
{
    let own = question.show.own(y.block);
    give_own(question.ask, s, wide(own), y.base, page, w)
}

// ---- uses

// Kept: `RecordsReady` and `HasBlock` in three contracts are no plainer as a field: they speak of question, m and y at once, and y is another in each call.

// The join of the used block from which the walk goes on in the copy of a use, if it does.
fn door(question: &Question, m: &[u8], y: Inner, w: usize) -> Option<usize>
    requires { UseRow question.now.show.rows.now y.block y.row
        × HasBlock m.now y.block
        × RecordsReady question.now.ask (blocks_of question.now.show.rows.now) m.now y.block y.cue
        × MayEnter question.now.ask question.now.show.rows.now y w }
    ensures { Door question.now.ask question.now.show.rows.now y w result }
{
    let show = &question.show;
    if question.ask.room < w {
        return None;
    }
    let size = show.size_of(y.block, y.row);
    if y.base + size <= question.ask.after {
        return None;
    }
    let j = used(show.rows, y.row);
    let joins = show.joins(j);
    let i = join_at(show.rows, y.row, joins, y.cue)?;
    if m[BLOCK * j + RECORD * i + INSIDE] == 1 {
        Some(i)
    } else {
        None
    }
}

// Gives the page the cues that the cue is linked to in the copies of a copy's uses.
#[cycle(enter_walk)]
fn walk(question: &Question, m: &[u8], y: Visit, page: &mut [u32], w: usize) -> usize
    requires { RecordsReady question.now.ask (blocks_of question.now.show.rows.now) m.now y.block y.cue
        × HasBlock m.now y.block
        × MayVisit question.now.ask question.now.show.rows.now y page.old w }
    ensures { UsesWalked question.now.ask question.now.show.rows.now y page.old w page.new result }
{
    let show = &question.show;
    let mut g = w;
    let mut b = y.base + show.own(y.block);
    let rows = show.use_rows(y.block);
    for r in rows.start..rows.end {
        let inner = Inner {
            block: y.block,
            row: r,
            base: b,
            cue: y.cue,
        };
        g = enter(question, m, inner, page, g);
        b += show.size_of(y.block, r);
    }
    g
}

// Gives the page the cues inside the copy of a use: the own ones, then those of its uses.
#[cycle(enter_walk)]
fn enter(question: &Question, m: &[u8], y: Inner, page: &mut [u32], w: usize) -> usize
    requires { UseRow question.now.show.rows.now y.block y.row
        × HasBlock m.now y.block
        × RecordsReady question.now.ask (blocks_of question.now.show.rows.now) m.now y.block y.cue
        × MayEnter question.now.ask question.now.show.rows.now y w
        × (question.now.ask.room ≤ length page.old) }
    ensures { Entered question.now.ask question.now.show.rows.now y page.old w page.new result }
{
    let Some(i) = door(question, m, y, w) else {
        return w;
    };
    let show = &question.show;
    let j = used(show.rows, y.row);
    let at = BLOCK * j + RECORD * i;
    let inside = Visit {
        block: j,
        base: y.base,
        cue: show.own(j) + 1 + (i as u32),
    };
    let g = give_block(question, &m[at..at + RECORD], inside, page, w);
    let rows = show.use_rows(j);
    if rows.start == rows.end {
        return g;
    }
    walk(question, m, inside, page, g)
}

// ---- joins

// The lesser of x and y, where y counts only if it is marked and above last.
fn lesser_of(flag: u8, y: u32, last: u32, x: Option<u32>) -> Option<u32>
    ensures { result ≡ lesser flag y last x }
{
    if flag == 1 && last < y {
        return match x {
            Some(least) => Some(least.min(y)),
            None => Some(y),
        };
    }
    x
}

// The least cue above last that a marked join meets: of each join its flag is lent, and the cue that it meets.
fn next_join(flags: &[u8], met: &[u32], last: u32) -> Option<u32>
    requires { length flags.now ≡ length met.now }
    ensures { Next flags.now (length flags.now) met.now last result }
{
    let mut x = None;
    for (j, flag) in flags.iter().enumerate() {
        x = lesser_of(*flag, met[j], last, x);
    }
    x
}

// Gives the page the cues that the marked joins meet, in rising order.
fn give_joins(q: Ask, flags: &[u8], met: &[u32], page: &mut [u32]) -> usize
    requires { (length flags.now ≡ length met.now) × HasRoom q page.old 0 }
    ensures { JoinsDone q flags.now (length flags.now) met.now page.old 0 page.new result }
{
    let mut g = 0;
    let mut last = q.after;
    // Kept: no plainer as a `for`: it counts nothing, and ends where no marked join meets a cue above the last one.
    while let Some(x) = next_join(flags, met, last) {
        g = give(q.room, page, g, x);
        last = x;
    }
    g
}

// ---- the question

// Kept: `MayAnswer` in three contracts is no plainer as a field: it speaks of question, copy, cue and page, and only these three take them together.

// Gives the page the cues asked for that own cue c of a copy is linked to, by means of a table.
fn answer_by(question: &Question, z: Frame, c: u32, page: &mut [u32], m: &mut [u8]) -> usize
    requires { MayAnswer question.now.ask question.now.show.rows.now z c page.old
        × HasBlock m.old z.block
        × Table question.now.ask (blocks_of question.now.show.rows.now) m.old }
    ensures { Answered question.now.ask question.now.show.rows.now z c page.old page.new result }
{
    let k = z.block;
    let joins = question.show.joins(k);
    let mut s = [0u8; RECORD];
    question.marks_of(m, k, c, &mut s);
    let y = Visit {
        block: k,
        base: z.base,
        cue: c,
    };
    let g = give_joins(question.ask, &s[..joins], &z.met[..joins], page);
    let h = give_block(question, &s, y, page, g);
    walk(question, m, y, page, h)
}

// The same by a table of some bytes, which has the records of the copy's block and of those below.
fn answer_with<const BYTES: usize>(question: &Question, z: Frame, c: u32, page: &mut [u32]) -> usize
    requires { MayAnswer question.now.ask question.now.show.rows.now z c page.old
        × (block_size * z.block + block_size ≤ BYTES)
        × (BYTES ≤ block_size * max_blocks) }
    ensures { Answered question.now.ask question.now.show.rows.now z c page.old page.new result }
{
    let mut m = [0u8; BYTES];
    answer_by(question, z, c, page, &mut m)
}

// The same: in a low block a short table is enough.
fn answer_from(question: &Question, z: Frame, c: u32, page: &mut [u32]) -> usize
    requires { MayAnswer question.now.ask question.now.show.rows.now z c page.old }
    ensures { Answered question.now.ask question.now.show.rows.now z c page.old page.new result }
{
    if z.block < LOW {
        return answer_with::<LOW_TABLE>(question, z, c, page);
    }
    answer_with::<TABLE>(question, z, c, page)
}

// Lists the cues asked for of the cue of a place, as many as the page has room for.
fn list_by(question: &Question, place: Place, rows: &[u32], page: &mut [u32]) -> Listed
    requires { Found question.now.show.rows.now question.now.show.index.now rows.now place
        × (question.now.ask.room ≡ min (length page.old) max_total) }
    ensures { IsListed (wanted question.now.ask (show_links (blocks_of question.now.show.rows.now)) place.cue 0 (count (blocks_of question.now.show.rows.now)))
        page.old page.new result }
{
    let room = question.ask.room;
    let z = descend(&question.show, place, rows);
    let g = answer_from(question, z, place.own, page);
    Listed {
        written: g.min(room) as u32,
        more: room < g,
    }
}

// Lists the cues greater than n that links lead to from a cue, or inward from which they lead to
// it. No more cues are ever written than a show may have.
// Kept: `inward` is a Bool, for an enum is no plainer: each clause would turn it to the Bool that the definition `linked_cues` reads.
// Kept: `Found` here and in `list_labels`: tried as a ghost field (`triples`, `Aims`), no proof closed, as it may have one proof only, and `Found` has a path.
pub fn list(
    show: &Show,
    inward: bool,
    place: Place,
    rows: &[u32],
    n: u32,
    page: &mut [u32],
) -> Listed
    requires { Found show.now.rows.now show.now.index.now rows.now place }
    ensures { IsListed (linked_cues inward (blocks_of show.now.rows.now) place.cue n) page.old page.new result }
{
    let ask = Ask {
        inward,
        lo: 1,
        hi: MAX_LABEL,
        after: n,
        room: page.len().min(MAX_TOTAL_64),
    };
    list_by(&Question { show: *show, ask }, place, rows, page)
}

// Lists the cues that links with labels lo to hi lead to from a cue.
pub fn list_labels(
    show: &Show,
    lo: u32,
    hi: u32,
    place: Place,
    rows: &[u32],
    page: &mut [u32],
) -> Listed
    requires { Found show.now.rows.now show.now.index.now rows.now place }
    ensures { IsListed (labelled_cues lo hi (blocks_of show.now.rows.now) place.cue) page.old page.new result }
{
    let ask = Ask {
        inward: false,
        lo,
        hi,
        after: 0,
        room: page.len().min(MAX_TOTAL_64),
    };
    list_by(&Question { show: *show, ask }, place, rows, page)
}
