// The wait file, read in one pass to a table of waits. Others call read.
#![tactic(auto)]

ghost use Rattle.std.specs.Prelude.{◌≡◌, true, ◌<◌, set};
ghost use Rattle.model.specs.Reasons.{number_of};
ghost use Rattle.model.specs.Waits.{wait_names, is_outside, no_waits, wait_file};
ghost use Rattle.lines.specs.Scanning.{starts_with};
ghost use Rattle.waits.specs.Passing.{earliest, is_low, with_line, judged, SaysWaits};

use model::limits::{MAX_FOLLOWED, MAX_WAIT};
use model::{LineRefusal, Reason};

// A wait for each of the labels 0 to 254.
pub const WAITS: usize = MAX_FOLLOWED as usize + 1;

// The line of names, and its bytes.
const NAMES: [u8; NAMES_SIZE] = *b"label,wait\n";

const NAMES_SIZE: usize = 11;

// What is known of the lines read so far: the number of the next, the label of the last, and the first lines that refusals 16 and 17 are for, if there are any.
#[derive(Clone, Copy)]
struct Seen {
    line: usize,
    before: u32,
    outside: Option<usize>,
    low: Option<usize>,
}

impl Seen {
    // What is known behind one line more. The number of lines has 64 bits.
    fn with_line(self, label: u32, wait: u32) -> Seen
        requires { self.line < 18446744073709551615 }
        ensures { result ≡ with_line self label wait }
    {
        Seen {
            line: self.line + 1,
            before: label,
            outside: earliest(self.outside, is_outside(label, wait), self.line),
            low: earliest(self.low, is_low(label, self.before), self.line),
        }
    }

    // 16, then 17, or none of them.
    fn judge(self) -> Result<(), LineRefusal>
        ensures { result ≡ judged self }
    {
        if let Some(line) = self.outside {
            return Err(unfit(Reason::WaitOutOfRange, line));
        }
        if let Some(line) = self.low {
            return Err(unfit(Reason::WaitsOutOfOrder, line));
        }
        Ok(())
    }
}

// A label or a wait is outside its range.
fn is_outside(label: u32, wait: u32) -> bool
    ensures { result ≡ is_outside label wait }
{
    label < 1 || MAX_FOLLOWED < label || MAX_WAIT < wait
}

// A label isn't above the one before.
fn is_low(label: u32, before: u32) -> bool
    ensures { result ≡ is_low before label }
{
    label <= before
}

// The first line of a kind: the one that is known, else this one if it is of the kind.
// Kept: `is` is a Bool since it is what a test of the line said (`is_outside`, `is_low`), and no switch between two ways.
fn earliest(known: Option<usize>, is: bool, line: usize) -> Option<usize>
    ensures { result ≡ earliest known is line }
{
    known.or(is.then_some(line))
}

// A refusal, its line in 64 bits.
fn unfit(reason: Reason, line: usize) -> LineRefusal
    ensures { result ≡ record { number = number_of reason; place = line } }
{
    LineRefusal {
        reason,
        place: line as u64,
    }
}

// A label's wait to its place, if there is one.
// Kept: apart from `verdicts::put`, for one is no plainer: a test and a store, whose promise there knows the length of the index (`put_at`).
fn put_wait(waits: &mut [u32], label: u32, wait: u32)
    ensures { waits.new ≡ set waits.old label wait }
{
    let i = label as usize;
    if i < waits.len() {
        waits[i] = wait;
    }
}

// The lines behind the names: the first malformed one ends the pass, the first lines of 16 and 17 are kept.
// Kept: a `while` that counts nothing: it goes on from line to line, each of another length, and ends with the file.
fn read_lines(file: &[u8], waits: &mut [u32]) -> Result<(), LineRefusal>
    requires { (waits.old ≡ no_waits) × (starts_with wait_names file.now ≡ true) }
    ensures { SaysWaits (wait_file file.now) result waits.new }
{
    let mut row = [0; 2];
    let mut seen = Seen {
        line: 2,
        before: 0,
        outside: None,
        low: None,
    };
    let mut at = NAMES_SIZE;
    while at < file.len() {
        let Some(next) = lines::line_at(file, at, &mut row) else {
            return Err(unfit(Reason::BadWaitLine, seen.line));
        };
        let [label, wait] = row;
        put_wait(waits, label, wait);
        seen = seen.with_line(label, wait);
        at = next;
    }
    seen.judge()
}

// Reads a wait file to a table of zeros. What a refused file leaves there is left open.
pub fn read(file: &[u8], waits: &mut [u32]) -> Result<(), LineRefusal>
    requires { waits.old ≡ no_waits }
    ensures { SaysWaits (wait_file file.now) result waits.new }
{
    if lines::starts(file, &NAMES) {
        return read_lines(file, waits);
    }
    Err(unfit(Reason::BadWaitLine, 1))
}
