// A run over the cases, and its counts.
use crate::data_lines::{Case, Line, Lines};
use crate::judging::LENT;
use crate::shown::Shown;
use crate::text::Numbers;
use crate::{judging, shown};
use std::alloc::{AllocError, Global};
use std::io;
use std::io::{Eprint, Write};
use std::rt::Files;

// The show, the numbers of the last content, whether all cases since the last name were right, and the counts.
// Kept: `all_right` is a flag with no value beside it: whether the cases so far were right, of which those with no name count with the next that has one.
#[derive(Drop)]
pub struct Run<'a, R: Files + Eprint, W: Write> {
    rt: &'a R,
    out: &'a mut W,
    alloc: Global,
    shown: Shown,
    content: Vec<u32>,
    all_right: bool,
    right: u64,
    wrong: u64,
}

impl<'a, R: Files + Eprint, W: Write> Run<'a, R, W> {
    // Nothing is known yet.
    pub fn new(rt: &'a R, out: &'a mut W, alloc: Global) -> Result<Run<'a, R, W>, AllocError> {
        Ok(Run {
            rt,
            out,
            alloc,
            shown: Shown::new(alloc)?,
            content: Vec::new(alloc),
            all_right: true,
            right: 0,
            wrong: 0,
        })
    }

    // The cases in the file of this name, which is read into a list. Wrong cases that no name follows count as one.
    pub fn take_cases(&mut self, name: &str, text: &mut [u8]) -> io::Result<()> {
        let size = shown::load(self.rt, name, text)?;
        self.shown.clear();
        self.content.clear();
        self.all_right = true;
        for line in Lines::new(text, size) {
            self.take_line(line)?;
        }
        if !self.all_right {
            self.wrong = self.wrong.saturating_add(1);
        }
        Ok(())
    }

    fn take_line(&mut self, line: Line) -> io::Result<()> {
        match line {
            Line::Empty => Ok(()),
            Line::Named(name, told) => self.shown.read(self.rt, name, told),
            Line::Below(show) => {
                self.shown.copy(show);
                Ok(())
            }
            Line::Asked(case) => self.take_case(&case),
        }
    }

    fn take_case(&mut self, case: &Case) -> io::Result<()> {
        if !case.content.starts_with(b"=") {
            self.content = Numbers::new(case.content).take(LENT).collect(self.alloc)?;
        }
        self.all_right &= judging::is_right(
            self.alloc,
            case,
            &self.shown,
            self.content.as_slice(),
        )?;
        if case.name.is_empty() {
            return Ok(());
        }
        self.tell(case.name)
    }

    // A case with a name says how it and the ones before it went.
    fn tell(&mut self, name: &[u8]) -> io::Result<()> {
        if self.all_right {
            self.out.write_all(b"ok ")?;
            self.right = self.right.saturating_add(1);
        } else {
            self.out.write_all(b"WRONG ")?;
            self.wrong = self.wrong.saturating_add(1);
        }
        self.out.write_all(name)?;
        self.out.write_all(b"\n")?;
        self.all_right = true;
        Ok(())
    }

    pub fn tell_counts(&mut self) -> io::Result<()> {
        let right = self.right;
        let wrong = self.wrong;
        writeln!(self.out, "{right} right, {wrong} wrong")
    }
}
