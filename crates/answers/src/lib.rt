// The answers to the questions about rows that were checked: each promise is an equation with the model's definition of the question, for
// a loaded show.
//
// `read_in`, `write_rows`, `locate_in`, `number_in`, `list_of`, `row_in`, `fewest_in`, `quickest_in`.
#![tactic(auto)]

ghost use Rattle.std.specs.Prelude.{◌≡◌, ◌≤◌, true, false, length, MatchOption};
ghost use Rattle.model.specs.Limits.{max_depth, work_size};
ghost use Rattle.model.specs.Answers.{of_read, of_write, of_locate, of_number, of_list, of_row, of_fewest, of_quickest};
ghost use Rattle.model.specs.Rows.{rows_of, file_text};
ghost use Rattle.model.specs.Verdicts.{verdict, Accepted};
ghost use Rattle.model.specs.Blocks.{blocks_of, count};
ghost use Rattle.model.specs.Rules.{is_cue};
ghost use Rattle.model.specs.Behind.{behind};
ghost use Rattle.model.specs.Questions.{outcome, read_into, write_into, locate_in, numbered, show_number, row_found, row_in, fewest_in, quickest_under, quickest_in};
ghost use Rattle.model.specs.Waits.{WaitTable, wait_file};
ghost use Rattle.shows.specs.Waits.{AreWaits};
ghost use Rattle.behind.specs.Ways.{RowBehind};
ghost use Rattle.answers.specs.Asked.{list_of, are_cues, between};

use behind::RowAt;
use blocks::Show;
use model::limits::{MAX_DEPTH, NO_CHAIN, ROW_SIZE, WORK_SIZE};
use model::{CuePlace, FoundRow, LineRefusal, Listed, Reason, Refusal, ShowSize};
use quickest::NO_SUM;
use waits::WAITS;

// The refusals by which a question about accepted rows ends, each with no place: what is lent is too short, a cue is not there, a path and an own cue are
// no cue's, and no link joins two cues.
const TOO_SHORT: Refusal = Refusal {
    reason: Reason::TooShort,
    place: 0,
};

const NO_CUE: Refusal = Refusal {
    reason: Reason::NoSuchCue,
    place: 0,
};

const NO_PLACE: Refusal = Refusal {
    reason: Reason::NoSuchPath,
    place: 0,
};

const NO_LINK: Refusal = Refusal {
    reason: Reason::NoSuchLink,
    place: 0,
};

// v is a cue of a show that has so many.
fn is_cue(cues: u32, v: u32) -> bool
    ensures { result ≡ is_cue cues v }
{
    if v < 1 {
        return false;
    }
    if cues < v {
        return false;
    }
    true
}

// s and t are cues of a show that has so many.
fn are_cues(cues: u32, s: u32, t: u32) -> bool
    ensures { result ≡ are_cues cues s t }
{
    let starts = is_cue(cues, s);
    if !starts {
        return false;
    }
    is_cue(cues, t)
}

// Cue n of a loaded show.
pub fn locate_in(show: &Show, n: u32, path: &mut [u32]) -> Result<CuePlace, Refusal>
    ensures { outcome (of_locate result) path.new ≡ locate_in (blocks_of show.now.rows.now) n path.old }
{
    if path.len() < MAX_DEPTH {
        return Err(TOO_SHORT);
    }
    let known = is_cue(show.count(), n);
    if !known {
        return Err(NO_CUE);
    }
    let place = paths::locate(show, n, path);
    Ok(CuePlace {
        depth: place.depth as u32,
        block: place.block as u32,
        own: place.own,
    })
}

// The number of a path and an own cue of a loaded show.
pub fn number_in(show: &Show, path: &[u32], own: u32) -> Result<u32, Refusal>
    ensures { of_number result ≡ numbered (show_number (blocks_of show.now.rows.now) path.now own) }
{
    paths::number(show, path, own).ok_or(NO_PLACE)
}

// The rows of a loaded show, handed out.
pub fn read_in(show: &Show, rows: &mut [u32]) -> Result<ShowSize, Refusal>
    ensures { outcome (of_read result) rows.new ≡ read_into show.now.rows.now rows.old }
{
    if rows.len() < show.rows.len() {
        return Err(TOO_SHORT);
    }
    rows::copy(show.rows, rows);
    let many = (show.rows.len() / ROW_SIZE) as u32;
    let blocks = (show.last() + 1) as u32;
    Ok(ShowSize {
        rows: many,
        blocks,
        cues: show.count(),
    })
}

// Accepted rows written as a file.
pub fn write_rows(rows: &[u32], out: &mut [u8]) -> Result<u32, Refusal>
    requires { verdict rows.now ≡ Accepted }
    ensures { outcome (of_write result) out.new ≡ write_into (file_text (rows_of rows.now)) out.old }
{
    let many = rows.len() / ROW_SIZE;
    let size = codec::measure(rows, many);
    if out.len() < size {
        return Err(TOO_SHORT);
    }
    codec::emit(rows, many, out);
    Ok(size as u32)
}

// The list of cue v of a loaded show.
// Kept: `inward` is a Bool, for an enum is no plainer: each clause would turn it to the Bool that the definition `list_of` reads.
pub fn list_of(
    show: &Show,
    inward: bool,
    v: u32,
    n: u32,
    page: &mut [u32],
) -> Result<Listed, Refusal>
    ensures { outcome (of_list result) page.new ≡ list_of inward (blocks_of show.now.rows.now) v n page.old }
{
    let known = is_cue(show.count(), v);
    if !known {
        return Err(NO_CUE);
    }
    let mut way = [0u32; MAX_DEPTH];
    let place = paths::find(show, v, &mut way);
    Ok(lists::list(show, inward, place, &way, n, page))
}

// Two cues of a loaded show.
#[derive(Clone, Copy)]
struct Cues<'a> {
    show: Show<'a>,
    s: u32,
    t: u32,
    ghost known: { ((1 ≤ s) × (s ≤ count (blocks_of show.rows.now))) × ((1 ≤ t) × (t ≤ count (blocks_of show.rows.now))) },
}

impl<'a> Cues<'a> {
    // s and t, if both are cues of the show.
    fn new(show: &Show<'a>, s: u32, t: u32) -> Option<Cues<'a>>
        ensures { MatchOption result (are_cues (count (blocks_of show.now.rows.now)) s t ≡ false)
            (λ c. (c.show ≡ show.now) × (c.s ≡ s) × (c.t ≡ t) × (are_cues (count (blocks_of show.now.rows.now)) s t ≡ true)) }
    {
        let known = are_cues(show.count(), s, t);
        if !known {
            return None;
        }
        Some(Cues { show: *show, s, t })
    }

    // The row behind the follow-on from cue s to cue t. If there is one, the rows of the uses that lead to its copy stand first in the list afterwards.
    // Only the larger cue is looked for: where a link joins the two, the larger cue's copy is the deeper one, since a copy numbers its own cues before those of its uses.
    fn behind(&self, way: &mut [u32; MAX_DEPTH]) -> Option<RowAt>
        ensures { RowBehind self.now.show.rows.now self.now.show.index.now way.new self.now.s self.now.t result × (length way.new ≡ max_depth) }
    {
        let (s, t) = (self.s, self.t);
        if s < t {
            let place = paths::find(&self.show, t, way);
            return behind::behind(&self.show, place, way, s, true);
        }
        let place = paths::find(&self.show, s, way);
        behind::behind(&self.show, place, way, t, false)
    }

    // The answer about that row. The path of its copy goes to the beginning of the lent list, which is long enough.
    fn row_behind(&self, path: &mut [u32]) -> Result<FoundRow, Refusal>
        requires { max_depth ≤ length path.old }
        ensures { outcome (of_row result) path.new ≡ row_found (behind self.now.show.rows.now self.now.s self.now.t) path.old }
    {
        let mut way = [0u32; MAX_DEPTH];
        let Some(at) = self.behind(&mut way) else {
            return Err(NO_LINK);
        };
        paths::positions(&self.show, at.depth, &mut way);
        rows::copy(&way[..at.depth], path);
        Ok(FoundRow {
            row: at.row,
            depth: at.depth as u32,
        })
    }

    // The fewest follow-ons between the two. The work area is large enough.
    // Kept: a clause for that, here and below, and no array, by the C interface: a caller may lend more, and what stands behind is promised to stay (`between`).
    fn least(&self, work: &mut [u32]) -> Result<Option<u32>, Refusal>
        requires { work_size ≤ length work.old }
        ensures { outcome (of_fewest result) work.new ≡ between (blocks_of self.now.show.rows.now) self.now.s self.now.t work.old }
    {
        let mut up = [0u32; MAX_DEPTH];
        let from = paths::find(&self.show, self.s, &mut up);
        let mut down = [0u32; MAX_DEPTH];
        let to = paths::find(&self.show, self.t, &mut down);
        distance::summarise(&self.show, work);
        let steps = distance::fewest(&self.show, from, &up, to, &down, work);
        if steps < NO_CHAIN {
            return Ok(Some(steps));
        }
        Ok(None)
    }

    // The quickest way between the two, where labels wait so long. The work area is large enough.
    fn quickest_with(&self, waits: &[u32], work: &mut [u64]) -> Result<Option<u64>, LineRefusal>
        requires { AreWaits waits.now × (work_size ≤ length work.old) }
        ensures { outcome (of_quickest result) work.new
            ≡ quickest_under (WaitTable waits.now) (blocks_of self.now.show.rows.now) self.now.s self.now.t work.old }
    {
        let mut way_up = [0u32; MAX_DEPTH];
        let from = paths::find(&self.show, self.s, &mut way_up);
        let mut way_down = [0u32; MAX_DEPTH];
        let to = paths::find(&self.show, self.t, &mut way_down);
        let sum = quickest::quickest(&self.show, waits, from, &way_up, to, &way_down, work);
        if sum < NO_SUM {
            return Ok(Some(sum));
        }
        Ok(None)
    }

    // The same under a wait file.
    fn quickest_under(&self, file: &[u8], work: &mut [u64]) -> Result<Option<u64>, LineRefusal>
        requires { work_size ≤ length work.old }
        ensures { outcome (of_quickest result) work.new
            ≡ quickest_under (wait_file file.now) (blocks_of self.now.show.rows.now) self.now.s self.now.t work.old }
    {
        let mut waits = [0u32; WAITS];
        waits::read(file, &mut waits)?;
        self.quickest_with(&waits, work)
    }
}

// The row behind the follow-on from cue s to cue t of a loaded show.
pub fn row_in(show: &Show, s: u32, t: u32, path: &mut [u32]) -> Result<FoundRow, Refusal>
    ensures { outcome (of_row result) path.new ≡ row_in show.now.rows.now s t path.old }
{
    let room = path.len();
    if room < MAX_DEPTH {
        return Err(TOO_SHORT);
    }
    let Some(cues) = Cues::new(show, s, t) else {
        return Err(NO_CUE);
    };
    cues.row_behind(path)
}

// The fewest follow-ons from cue s to cue t of a loaded show.
pub fn fewest_in(show: &Show, s: u32, t: u32, work: &mut [u32]) -> Result<Option<u32>, Refusal>
    ensures { outcome (of_fewest result) work.new ≡ fewest_in (blocks_of show.now.rows.now) s t work.old }
{
    if work.len() < WORK_SIZE {
        return Err(TOO_SHORT);
    }
    let Some(cues) = Cues::new(show, s, t) else {
        return Err(NO_CUE);
    };
    cues.least(work)
}

// The quickest way from cue s to cue t of a loaded show, under a wait file.
pub fn quickest_in(
    show: &Show,
    s: u32,
    t: u32,
    file: &[u8],
    work: &mut [u64],
) -> Result<Option<u64>, LineRefusal>
    ensures { outcome (of_quickest result) work.new
        ≡ quickest_in (blocks_of show.now.rows.now) s t file.now work.old }
{
    let room = work.len();
    if room < WORK_SIZE {
        return Err(TOO_SHORT.into());
    }
    let Some(cues) = Cues::new(show, s, t) else {
        return Err(NO_CUE.into());
    };
    cues.quickest_under(file, work)
}
