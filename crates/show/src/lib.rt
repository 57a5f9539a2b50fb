// The show library: every question of documents 01 and 02, for all bytes, rows, numbers and lent buffers. Each promise is an equation with the
// model's definition of the question: what is returned, in document 01's numbers, and what the lent list that is written holds
// afterwards, refused calls included. What is lent to be read stays as it was.
#![tactic(auto)]

ghost use Rattle.std.specs.Prelude.{◌≡◌};
ghost use Rattle.model.specs.Answers.{of_list};
ghost use Rattle.model.specs.Questions.{outcome};
ghost use Rattle.model.specs.Asking.{AsksRead, AsksDeskRead, AsksWrite, AsksCount, AsksLocate, AsksNumber, AsksOut, AsksIn, AsksRow, AsksFewest, AsksQuickest};
ghost use Rattle.answers.specs.Asked.{list_asked};

use blocks::{INDEX, Show};
use model::limits::ROOM;
use model::{CuePlace, FoundRow, LineRefusal, Listed, Refusal, ShowSize};

// Kept: the first lines of each entry point, which check the lent rows and make the `Show`: tried as one function that answers `Result<Show, Refusal>`, the
// proof did not close at the callers' `?` (one side of that Result has a ghost field, the other a model); a closure in its place would have to promise what
// is left of the lent list where it isn't called. So entry points are alike whose answers are of different types. `read` and `read_desk` differ in the loader that they
// call; one that takes the loader is no plainer, since it would be called by these two alone, each for a paper's question.

// The count of cues.
pub fn count(rows: &[u32]) -> Result<u32, Refusal>
    ensures { AsksCount rows.now result }
{
    let mut index = [0u32; INDEX];
    verdicts::check(rows, &mut index)?; // The refusal goes up as it is.
    let show = Show {
        rows,
        index: &index,
    };
    Ok(show.count())
}

// Where cue n is: depth, block and own cue, and its path in the first numbers of a lent list.
pub fn locate(rows: &[u32], n: u32, path: &mut [u32]) -> Result<CuePlace, Refusal>
    ensures { AsksLocate rows.now n path.old result path.new }
{
    let mut index = [0u32; INDEX];
    verdicts::check(rows, &mut index)?;
    let show = Show {
        rows,
        index: &index,
    };
    answers::locate_in(&show, n, path)
}

// The number of a path and an own cue.
pub fn number(rows: &[u32], path: &[u32], own: u32) -> Result<u32, Refusal>
    ensures { AsksNumber rows.now path.now own result }
{
    let mut index = [0u32; INDEX];
    verdicts::check(rows, &mut index)?;
    let show = Show {
        rows,
        index: &index,
    };
    answers::number_in(&show, path, own)
}

// A file read to rows: how many rows, blocks and cues it has.
pub fn read(file: &[u8], rows: &mut [u32]) -> Result<ShowSize, Refusal>
    ensures { AsksRead file.now rows.old result rows.new }
{
    let mut numbers = [0u32; ROOM];
    let mut index = [0u32; INDEX];
    let end = loading::load(file, &mut numbers, &mut index)?;
    let show = Show {
        rows: &numbers[0..end],
        index: &index,
    };
    answers::read_in(&show, rows)
}

// A file read the second way, the rows that come with the desk before its own: how many rows, blocks and cues there are in all.
pub fn read_desk(file: &[u8], rows: &mut [u32]) -> Result<ShowSize, Refusal>
    ensures { AsksDeskRead file.now rows.old result rows.new }
{
    let mut numbers = [0u32; ROOM];
    let mut index = [0u32; INDEX];
    let end = loading::load_desk(file, &mut numbers, &mut index)?;
    let show = Show {
        rows: &numbers[0..end],
        index: &index,
    };
    answers::read_in(&show, rows)
}

// Rows written as a file: its length.
pub fn write(rows: &[u32], out: &mut [u8]) -> Result<u32, Refusal>
    ensures { AsksWrite rows.now out.old result out.new }
{
    let mut index = [0u32; INDEX];
    verdicts::check(rows, &mut index)?;
    answers::write_rows(rows, out)
}

// The cues linked to cue v, out or in.
// Kept: `inward` is a Bool, for an enum is no plainer: each clause would turn it to the Bool that the definition `list_asked` reads.
fn list(rows: &[u32], inward: bool, v: u32, n: u32, page: &mut [u32]) -> Result<Listed, Refusal>
    ensures { outcome (of_list result) page.new ≡ list_asked inward rows.now v n page.old }
{
    let mut index = [0u32; INDEX];
    verdicts::check(rows, &mut index)?;
    let show = Show {
        rows,
        index: &index,
    };
    answers::list_of(&show, inward, v, n, page)
}

// The cues that follow on from cue v, by links or by notes, those above n: as many as the page has room for, rising, and whether there are more.
pub fn list_out(rows: &[u32], v: u32, n: u32, page: &mut [u32]) -> Result<Listed, Refusal>
    ensures { AsksOut rows.now v n page.old result page.new }
{
    list(rows, false, v, n, page)
}

// The cues from which cue v follows on, in the same way.
pub fn list_in(rows: &[u32], v: u32, n: u32, page: &mut [u32]) -> Result<Listed, Refusal>
    ensures { AsksIn rows.now v n page.old result page.new }
{
    list(rows, true, v, n, page)
}

// The row behind the follow-on from cue s to cue t: the number of a link row and the depth of the copy that it stands in, whose path goes to the first
// numbers of a lent list.
pub fn row(rows: &[u32], s: u32, t: u32, path: &mut [u32]) -> Result<FoundRow, Refusal>
    ensures { AsksRow rows.now s t path.old result path.new }
{
    let mut index = [0u32; INDEX];
    verdicts::check(rows, &mut index)?;
    let show = Show {
        rows,
        index: &index,
    };
    answers::row_in(&show, s, t, path)
}

// The fewest follow-ons from cue s to cue t, or none; notes are not followed. The work area holds the summaries of all blocks afterwards.
pub fn fewest(rows: &[u32], s: u32, t: u32, work: &mut [u32]) -> Result<Option<u32>, Refusal>
    ensures { AsksFewest rows.now s t work.old result work.new }
{
    let mut index = [0u32; INDEX];
    verdicts::check(rows, &mut index)?;
    let show = Show {
        rows,
        index: &index,
    };
    answers::fewest_in(&show, s, t, work)
}

// The quickest way from cue s to cue t under a wait file: the smallest sum of waits over all chains in tenths of a second, or none; notes are not followed.
// Afterwards the first 16,384 numbers of the work area, of 64 bits each, are 0.
pub fn quickest(
    rows: &[u32],
    s: u32,
    t: u32,
    file: &[u8],
    work: &mut [u64],
) -> Result<Option<u64>, LineRefusal>
    ensures { AsksQuickest rows.now s t file.now work.old result work.new }
{
    let mut index = [0u32; INDEX];
    verdicts::check(rows, &mut index)?; // The refusal's place is widened.
    let show = Show {
        rows,
        index: &index,
    };
    answers::quickest_in(&show, s, t, file, work)
}
