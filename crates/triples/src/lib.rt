// The links from one cue as a table of marks, without unfolding: for the program that prints them.
// `mark_cue` makes it.
#![tactic(auto)]

ghost use Rattle.std.specs.Prelude.{◌≡◌, ◌+◌, ◌≤◌, ◌<◌, min};
ghost use Rattle.model.specs.Limits.{max_label, printed_cues};
ghost use Rattle.model.specs.Blocks.{blocks_of, count};
ghost use Rattle.model.specs.Unfolding.{show_links};
ghost use Rattle.lists.specs.Answer.{labelled_cues};
ghost use Rattle.triples.specs.Marks.{label_places, Blank, marks_all, Within, Aims, TableTo, Marked, Says, GroupEnd};

use blocks::{Place, Show, wide};
use model::limits::{MAX_DEPTH, MAX_LABEL, PRINTED_CUES};

// The places of a cue in a table, one for each label from 0 on; and of a table, for each cue from 0 to the most of a
// show that is printed.
pub const LABEL_PLACES: usize = MAX_LABEL as usize + 1;

pub const MARKS: usize = LABEL_PLACES * (PRINTED_CUES_64 + 1);

const PRINTED_CUES_64: usize = PRINTED_CUES as usize;

// How many labels are asked for at a time, and how often that is.
const GROUP: u32 = 16;

const GROUPS: u32 = (MAX_LABEL + GROUP - 1) / GROUP;

// A cue of a loaded show: its place, and the rows of the uses that lead there.
// Kept: `Aims` in each contract: tried as a ghost field, no proof closed, as it may have one proof only, and `Found` has a path.
#[derive(Clone, Copy)]
struct Target<'a> {
    show: Show<'a>,
    place: Place,
    rows: &'a [u32],
}

// Kept: marks are bytes of one table, at places that are computed, by fixed memory.

// ---- cues

// Marks a label of some cues.
fn mark_cues(cues: &[u32], label: usize, m: &mut [u8; MARKS])
    requires { (label < label_places) × Within cues.now }
    ensures { m.new ≡ marks_all cues.now label m.old }
{
    for v in cues {
        m[LABEL_PLACES * wide(*v) + label] = 1;
    }
}

// ---- the labels

// The last label of the group that begins with lo.
fn group_end(lo: u32) -> u32
    requires { lo < label_places }
    ensures { GroupEnd lo result × (result ≡ min (lo + 15) max_label) }
{
    (lo + (GROUP - 1)).min(MAX_LABEL)
}

impl Target<'_> {
    // Marks the cues that links with one more label lead to.
    fn mark_label(&self, label: u32, m: &mut [u8; MARKS])
        requires { Aims self.now.show.rows.now self.now.show.index.now self.now.rows.now self.now.place
            × (1 ≤ label) × (label < label_places)
            × TableTo self.now.show.rows.now self.now.place.cue label m.old }
        ensures { TableTo self.now.show.rows.now self.now.place.cue (label + 1) m.new }
    {
        let mut page = [0u32; PRINTED_CUES_64];
        let listed = lists::list_labels(&self.show, label, label, self.place, self.rows, &mut page);
        mark_cues(&page[..wide(listed.written)], wide(label), m);
    }

    // Whether a link with a label from lo to hi leads from the cue.
    fn has_labels(&self, lo: u32, hi: u32) -> bool
        requires { Aims self.now.show.rows.now self.now.show.index.now self.now.rows.now self.now.place }
        ensures { Says result (labelled_cues lo hi (blocks_of self.now.show.rows.now) self.now.place.cue) }
    {
        let mut page = [0u32; 1];
        let listed = lists::list_labels(&self.show, lo, hi, self.place, self.rows, &mut page);
        0 < listed.written
    }

    // Marks the labels from lo to hi.
    fn mark_labels(&self, lo: u32, hi: u32, m: &mut [u8; MARKS])
        requires { Aims self.now.show.rows.now self.now.show.index.now self.now.rows.now self.now.place
            × (1 ≤ lo) × GroupEnd lo hi
            × TableTo self.now.show.rows.now self.now.place.cue lo m.old }
        ensures { TableTo self.now.show.rows.now self.now.place.cue (hi + 1) m.new }
    {
        for label in lo..=hi {
            self.mark_label(label, m);
        }
    }

    // The same, where a look at all of them at once may spare it.
    fn mark_group(&self, lo: u32, hi: u32, m: &mut [u8; MARKS])
        requires { Aims self.now.show.rows.now self.now.show.index.now self.now.rows.now self.now.place
            × (1 ≤ lo) × GroupEnd lo hi
            × TableTo self.now.show.rows.now self.now.place.cue lo m.old }
        ensures { TableTo self.now.show.rows.now self.now.place.cue (hi + 1) m.new }
    {
        if self.has_labels(lo, hi) {
            self.mark_labels(lo, hi, m);
        }
    }

    // Marks all labels, group by group.
    fn mark_all(&self, m: &mut [u8; MARKS])
        requires { Aims self.now.show.rows.now self.now.show.index.now self.now.rows.now self.now.place
            × TableTo self.now.show.rows.now self.now.place.cue 1 m.old }
        ensures { TableTo self.now.show.rows.now self.now.place.cue label_places m.new }
    {
        for group in 0..GROUPS {
            let lo = 1 + GROUP * group;
            self.mark_group(lo, group_end(lo), m);
        }
    }
}

// ---- the table of a cue

// A table without marks.
fn clear(m: &mut [u8; MARKS])
    ensures { Blank m.new }
{
    m.fill(0);
}

// Makes the table of cue u of a show with at most 1,000 cues.
pub fn mark_cue(show: &Show, u: u32, m: &mut [u8; MARKS])
    requires { (1 ≤ u) × (u ≤ count (blocks_of show.now.rows.now)) × (count (blocks_of show.now.rows.now) ≤ printed_cues) }
    ensures { Marked (show_links (blocks_of show.now.rows.now)) u (count (blocks_of show.now.rows.now)) m.new }
{
    clear(m);
    let mut rows = [0u32; MAX_DEPTH];
    let place = paths::find(show, u, &mut rows);
    let target = Target {
        show: *show,
        place,
        rows: &rows,
    };
    target.mark_all(m);
}
