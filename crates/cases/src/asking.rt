// The questions of the library, with their answers as numbers: 0 and what it gives, or a refusal and its place. What an answer lacks is 0.
// Kept: four numbers and no Result, for that is no plainer: the data has its answers so, and they are only compared.
use crate::shown::Shown;
use model::{LineRefusal, Listed, Refusal, ShowSize};

// What a case asks.
#[derive(Clone, Copy, PartialEq, Eq)]
pub enum Question {
    Count,
    Locate,
    Number,
    LinksOut,
    LinksIn,
    Fewest,
    Quickest,
    Behind,
    ReadDesk,
    Read,
    Write,
    // A word that is none of these is read, too.
    Unknown,
}

// A word asks by its first letter.
impl From<&[u8]> for Question {
    fn from(word: &[u8]) -> Question {
        match word.first() {
            Some(b'c') => Question::Count,
            Some(b'l') => Question::Locate,
            Some(b'n') => Question::Number,
            Some(b'o') => Question::LinksOut,
            Some(b'i') => Question::LinksIn,
            Some(b'f') => Question::Fewest,
            Some(b'q') => Question::Quickest,
            Some(b'b') => Question::Behind,
            Some(b'd') => Question::ReadDesk,
            Some(b'r') => Question::Read,
            Some(b'w') => Question::Write,
            _ => Question::Unknown,
        }
    }
}

fn refused(refusal: Refusal) -> [u32; 4] {
    [refusal.number(), refusal.place, 0, 0]
}

// A line that has no room in 32 bits counts as the largest that has.
fn line_refused(refusal: LineRefusal) -> [u32; 4] {
    let line = u32::try_from(refusal.place).unwrap_or(u32::MAX);
    [refusal.number(), line, 0, 0]
}

fn listed(answer: Result<Listed, Refusal>) -> [u32; 4] {
    answer.map_or_else(refused, |page| [0, page.written, u32::from(page.more), 0])
}

fn read(answer: Result<ShowSize, Refusal>) -> [u32; 4] {
    answer.map_or_else(refused, |size| [0, size.rows, size.blocks, size.cues])
}

// No chain is 0; a number of follow-ons is 1 and the number.
fn fewest(follow_ons: Option<u32>) -> [u32; 4] {
    follow_ons.map_or([0; 4], |n| [0, 1, n, 0])
}

// No chain is 0; a sum of waits is 1 and its lower and its upper half.
fn waited(sum: Option<u64>) -> [u32; 4] {
    sum.map_or([0; 4], |n| {
        [0, 1, (n & 0xffff_ffff) as u32, (n >> 32) as u32]
    })
}

// The quickest way under a wait file.
pub fn quickest(rows: &[u32], s: u32, t: u32, waits: &[u8], work: &mut [u64]) -> [u32; 4] {
    show::quickest(rows, s, t, waits, work).map_or_else(line_refused, waited)
}

pub fn write(rows: &[u32], out: &mut [u8]) -> [u32; 4] {
    show::write(rows, out).map_or_else(refused, |length| [0, length, 0, 0])
}

// A question whose lent list has 32 bits. The first number that the question for a number is given is an own cue, the others are a path.
pub fn ask(question: Question, shown: &Shown, given: &[u32], lent: &mut [u32]) -> [u32; 4] {
    let rows = shown.rows();
    let (first, others) = given.split_first().unwrap_or((&0, &[]));
    let second = others.first().copied().unwrap_or(0);
    match question {
        Question::Count => show::count(rows).map_or_else(refused, |cues| [0, cues, 0, 0]),
        Question::Locate => show::locate(rows, *first, lent).map_or_else(
            refused,
            |place| [0, place.depth, place.block, place.own],
        ),
        Question::Number => {
            show::number(rows, others, *first).map_or_else(refused, |n| [0, n, 0, 0])
        }
        Question::LinksOut => listed(show::list_out(rows, *first, second, lent)),
        Question::LinksIn => listed(show::list_in(rows, *first, second, lent)),
        Question::Fewest => {
            show::fewest(rows, *first, second, lent).map_or_else(refused, fewest)
        }
        Question::Behind => show::row(rows, *first, second, lent).map_or_else(
            refused,
            |link| [0, link.row, link.depth, 0],
        ),
        Question::ReadDesk => read(show::read_desk(shown.file(), lent)),
        _ => read(show::read(shown.file(), lent)),
    }
}
