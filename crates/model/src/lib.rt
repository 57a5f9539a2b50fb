// What the questions answer: each a `Result` with a refusal, or with one of these structs where the answer is several numbers. Only types: their meaning
// stands in specs/, beginning with Answers.antt. And the limits, as numbers.
#![tactic(auto)]

ghost use Rattle.std.specs.Prelude.{◌≡◌};
ghost use Rattle.std.proofs.Common.{ap};
ghost use Rattle.model.specs.Reasons.{Numbered, number_of, reason_of, reason_again};

pub use reason::Reason;
use std::marker::Model;

pub mod limits;
mod reason;

// A refusal: its reason, and its place, a line of the file, a row of the lent rows, or 0. Contracts see it as the two numbers of the papers.
#[derive(Clone, Copy, PartialEq, Eq, Debug)]
pub struct Refusal {
    pub reason: Reason,
    pub place: u32,
}

impl Model for Refusal {
    ghost Value = { Numbered };

    ghost view = { λ r. record { number = number_of r.reason; place = r.place } };

    ghost inverse = { λ v. record { reason = reason_of v.number; place = v.place } };

    ghost inverse_ok = { λ r _. ap (λ x. record { reason = x; place = r.place }) (reason_again r.reason) };
}

impl Refusal {
    pub fn new(reason: Reason, place: u32) -> Refusal
        ensures { result ≡ record { number = number_of reason; place = place } }
    {
        Refusal { reason, place }
    }

    pub fn number(&self) -> u32
        ensures { result ≡ self.now.number }
    {
        self.reason as u32
    }
}

// A refusal whose place may be a line of a wait file, which has any number of lines.
// Kept: a type of its own beside `Refusal`, since one generic in the place's type would be no plainer: each contract that names a place would first have to
// say which number a value of that type is.
#[derive(Clone, Copy, PartialEq, Eq, Debug)]
pub struct LineRefusal {
    pub reason: Reason,
    pub place: u64,
}

impl Model for LineRefusal {
    ghost Value = { Numbered };

    ghost view = { λ r. record { number = number_of r.reason; place = r.place } };

    ghost inverse = { λ v. record { reason = reason_of v.number; place = v.place } };

    ghost inverse_ok = { λ r _. ap (λ x. record { reason = x; place = r.place }) (reason_again r.reason) };
}

impl LineRefusal {
    pub fn number(&self) -> u32
        ensures { result ≡ self.now.number }
    {
        self.reason as u32
    }
}

impl From<Refusal> for LineRefusal {
    ghost from_gives = { λ r e. e ≡ r };

    fn from(refusal: Refusal) -> LineRefusal {
        LineRefusal {
            reason: refusal.reason,
            place: u64::from(refusal.place),
        }
    }
}

// What reading a file gives: how many rows it has, how many blocks they open, and the count of cues.
#[derive(Clone, Copy, PartialEq, Eq, Debug)]
pub struct ShowSize {
    pub rows: u32,
    pub blocks: u32,
    pub cues: u32,
}

// What locating a number gives: the depth of its path, the block and the own cue.
#[derive(Clone, Copy, PartialEq, Eq, Debug)]
pub struct CuePlace {
    pub depth: u32,
    pub block: u32,
    pub own: u32,
}

// What a list of linked cues gives: how many were written to the page, and whether there are more.
// Kept: a flag beside the number, for the C interface gives the two so (`show_list_out`), and a page may be full with nothing left.
#[derive(Clone, Copy, PartialEq, Eq, Debug)]
pub struct Listed {
    pub written: u32,
    pub more: bool,
}

// The row behind a follow-on: the number of a link row, and the depth of the copy that it stands in.
#[derive(Clone, Copy, PartialEq, Eq, Debug)]
pub struct FoundRow {
    pub row: u32,
    pub depth: u32,
}
