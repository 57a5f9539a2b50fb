// What the checks of a row know of it, beside its numbers: its kind, the check that it fails, and what the rows before it leave.
ghost use Rattle.std.specs.Prelude.{◌≡◌};
ghost use Rattle.model.specs.Reasons.{number_of};
ghost use Rattle.rules.specs.Numbers.{number, kind_number, KindGiven};

use model::Reason;

// What a row says.
#[derive(Clone, Copy, Debug, PartialEq, Eq)]
pub enum Kind {
    Opening = 0,
    Link = 1,
    Use = 2,
}

// The first of checks 5 to 8 that a row fails: a row that may not stand here, a number out of its range, a cue named twice, a row out of order.
#[derive(Clone, Copy, Debug, PartialEq, Eq)]
pub enum Fault {
    Place,
    Range,
    Repeated,
    Order,
}

impl From<Fault> for Reason {
    ghost from_gives = { λ fault reason. number_of reason ≡ number fault };

    fn from(fault: Fault) -> Reason {
        match fault {
            Fault::Place => Reason::CannotFollow,
            Fault::Range => Reason::OutOfRange,
            Fault::Repeated => Reason::NamedTwice,
            Fault::Order => Reason::OutOfOrder,
        }
    }
}

// There is no other kind: such a row may not stand anywhere.
impl TryFrom<u32> for Kind {
    type Error = Fault;

    ghost try_from_gives = { KindGiven };

    fn try_from(n: u32) -> Result<Kind, Fault> {
        match n {
            0 => Ok(Kind::Opening),
            1 => Ok(Kind::Link),
            2 => Ok(Kind::Use),
            _ => Err(Fault::Place),
        }
    }
}

// What is carried from row to row: how many blocks are open, how many cues the last of them has, the kind of the last row.
// Kept: its kind by its number, since `fault` promises an answer whatever number that is (`fault_of`).
#[derive(Clone, Copy, Debug, PartialEq, Eq)]
pub struct State {
    pub blocks: u32,
    pub cues: u32,
    pub kind: u32,
}
