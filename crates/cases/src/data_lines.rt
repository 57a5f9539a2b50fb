// The lines of the data, one by one.
//
// A line of the data that begins with = names the file of the show that the lines below it ask about; behind | may stand how many of
// its bytes are lent as a file, and how many of its numbers as rows. Where there is no name, the show stands below, up to the first
// case, which has no name. Each other line is a case, with | between its parts: its name, the question, what it is given, the size of
// the lent list, the answer, and what the list begins with afterwards. An answer is 0 and what it gives, or a refusal and its place.
// The quickest way is given a wait file behind the two cues, a semicolon for each of its line feeds; its work area must be cleared.
// A case with no name counts with the next one that has a name, and the content = is that of the case before.
ghost use Rattle.std.specs.Prelude.{◌≤◌, ◌<◌, ◌-◌, length};
ghost use Rattle.std.specs.Iterator.{at_most};

use crate::shown::BYTES;
use crate::text;

// The parts of a case.
#[derive(Clone, Copy)]
pub struct Case<'a> {
    pub name: &'a [u8],
    pub question: &'a [u8],
    pub given: &'a [u8],
    // What is given and all that stands behind it, since the parts of the quickest way have marks of their own.
    pub onward: &'a [u8],
    pub size: &'a [u8],
    pub answer: &'a [u8],
    pub content: &'a [u8],
}

#[derive(Clone, Copy)]
pub enum Line<'a> {
    Empty,
    // The name of a show's file, and the sizes that are told.
    Named(&'a [u8], &'a [u8]),
    // A show that stands below.
    Below(&'a [u8]),
    Asked(Case<'a>),
}

// The lines that are left, in a list that has so many bytes behind the last one.
#[derive(Drop)]
pub struct Lines<'a> {
    rest: &'a [u8],
    behind: usize,
}

impl<'a> Lines<'a> {
    // The lines of the first so many bytes of a list.
    pub fn new(text: &'a [u8], size: usize) -> Lines<'a> {
        Lines {
            rest: text,
            behind: text.len().saturating_sub(size),
        }
    }

    // Takes a part up to the mark, or to the line's end.
    fn part(&mut self, mark: u8) -> &'a [u8]
        ensures { length self.new.rest.now ≤ length self.old.rest.now - 1 }
    {
        let (part, rest) = text::part(self.rest, mark);
        self.rest = rest;
        part
    }

    // Takes a show that a line names, or one that stands below. That ends where the first case begins.
    fn show(&mut self) -> Line<'a>
        ensures { length self.new.rest.now ≤ length self.old.rest.now }
    {
        let line = self.part(b'\n');
        if !line.is_empty() {
            let (name, told) = text::part(line, b'|');
            return Line::Named(name, told);
        }
        let show = self.rest;
        let end = show
            .iter()
            .position(|b| *b == b'|')
            .unwrap_or(show.len())
            .min(BYTES);
        self.rest = &show[end..];
        Line::Below(&show[..end])
    }

    fn case(&mut self) -> Line<'a>
        ensures { length self.new.rest.now ≤ length self.old.rest.now - 1 }
    {
        let name = self.part(b'|');
        let question = self.part(b'|');
        let onward = self.rest;
        Line::Asked(Case {
            name,
            question,
            given: self.part(b'|'),
            onward,
            size: self.part(b'|'),
            answer: self.part(b'|'),
            content: self.part(b'\n'),
        })
    }
}

impl<'a> Iterator for Lines<'a> {
    type Item = Line<'a>;

    ghost remaining = { λ s. at_most (length s.rest.now) };

    fn next(&mut self) -> Option<Line<'a>> {
        if self.rest.len() <= self.behind {
            return None;
        }
        let (first, behind) = self.rest.split_first()?;
        match first {
            b'\n' => {
                self.rest = behind;
                Some(Line::Empty)
            }
            b'=' => {
                self.rest = behind;
                Some(self.show())
            }
            _ => Some(self.case()),
        }
    }
}
