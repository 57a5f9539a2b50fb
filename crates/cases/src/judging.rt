// Whether the answer to a case and all that was lent are as they must be. Lent lists hold 7s before the call.
use crate::asking::Question;
use crate::data_lines::Case;
use crate::shown::{BYTES, Shown};
use crate::text::Numbers;
use crate::{asking, text};
use std::alloc::{AllocError, Global};
use std::array;

// The numbers that a lent list may have.
pub const LENT: usize = 16400;

// The numbers that a question may be given, and the bytes of a wait file.
const GIVEN: usize = 140;

const WAITS: usize = 4096;

// The zeros that an answer leaves in a work area of 64 bits; a refusal leaves none.
const ZEROS: usize = 16384;

// A list begins with this content and holds sevens behind it, as far as it reaches.
fn holds<T: Copy + PartialEq>(list: &[T], content: &[T], seven: T) -> bool {
    let (begun, behind) = list.split_at(content.len().min(list.len()));
    content.starts_with(begun) && behind.iter().all(|x| *x == seven)
}

// The first number of a text, or 0.
fn single(text: &[u8]) -> u32 {
    Numbers::new(text).next().unwrap_or(0)
}

// What a case wants: the size of what is lent, and the answer.
#[derive(Clone, Copy)]
struct Wanted {
    size: usize,
    answer: [u32; 4],
}

impl Wanted {
    fn new(case: &Case) -> Wanted {
        let mut answer = Numbers::new(case.answer);
        Wanted {
            size: single(case.size) as usize,
            answer: array::from_fn(|_| answer.next().unwrap_or(0)),
        }
    }

    fn is_refusal(&self) -> bool {
        self.answer[0] != 0
    }

    // A question leaves this content in the lent list.
    fn is_asked(&self, question: Question, shown: &Shown, given: &[u32], content: &[u32]) -> bool {
        let mut list = [7u32; LENT];
        let lent = &mut list[..self.size.min(LENT)];
        asking::ask(question, shown, given, lent) == self.answer && holds(lent, content, 7)
    }

    // Writing gives the file without the zeros that pad its values, if it is not refused.
    fn is_written(&self, shown: &Shown) -> bool {
        let mut plain = [0u8; BYTES];
        let size = text::unpad(shown.file(), &mut plain).min(BYTES);
        let mut list = [7u8; BYTES];
        let out = &mut list[..self.size.min(BYTES)];
        let content = if self.is_refusal() {
            b""
        } else {
            &plain[..size]
        };
        asking::write(shown.rows(), out) == self.answer && holds(out, content, 7)
    }

    // The quickest way between two cues under a wait file clears its work area, if it is not refused.
    fn is_timed(&self, rows: &[u32], s: u32, t: u32, waits: &[u8]) -> bool {
        let mut list = [7u64; LENT];
        let work = &mut list[..self.size.min(LENT)];
        let zeros = [0u64; ZEROS];
        let content = if self.is_refusal() {
            &[]
        } else {
            zeros.as_slice()
        };
        asking::quickest(rows, s, t, waits, work) == self.answer && holds(work, content, 7)
    }
}

// The case of the quickest way: two cues and a wait file, with a space behind each cue.
fn is_timed(alloc: Global, case: &Case, shown: &Shown) -> Result<bool, AllocError> {
    let (first, behind) = text::part(case.onward, b' ');
    let (second, file) = text::part(behind, b' ');
    let waits: Vec<u8> = file
        .iter()
        .take(WAITS)
        .take_while(|b| **b != b'|')
        .map(|b| text::fed(*b))
        .collect(alloc)?;
    let wanted = Wanted::new(case);
    Ok(wanted.is_timed(
        shown.rows(),
        single(first),
        single(second),
        waits.as_slice(),
    ))
}

// The question of a case about the show gives what is wanted, and leaves this content in the lent list. Reading leaves the rows there.
pub fn is_right(
    alloc: Global,
    case: &Case,
    shown: &Shown,
    content: &[u32],
) -> Result<bool, AllocError> {
    let wanted = Wanted::new(case);
    match Question::from(case.question) {
        Question::Quickest => is_timed(alloc, case, shown),
        Question::Write => Ok(wanted.is_written(shown)),
        question => {
            let given: Vec<u32> = Numbers::new(case.given).take(GIVEN).collect(alloc)?;
            let reads = question == Question::Read && !wanted.is_refusal();
            let content = if reads { shown.rows() } else { content };
            Ok(wanted.is_asked(question, shown, given.as_slice(), content))
        }
    }
}
