// Every way in which the product says no. docs/refusals.md has the table.
ghost use Rattle.std.specs.Prelude.{◌≡◌, Some};
ghost use Rattle.clif.specs.Names.{refusal_name};
ghost use Rattle.clif.specs.Refusals.{refusal_number, refusal_place};

use std::error::Error;
use std::fmt;
use std::fmt::{Display, Formatter, Write};

// Each case holds the place of the fault.
#[derive(Clone, Copy, PartialEq, Eq, Debug)]
pub enum Refusal {
    // The file breaks off, goes on, or has a byte that means nothing there: the field's first byte.
    Unreadable(usize),
    // A total over a limit: the first byte of the count.
    OverLimit(usize),
    // Fields unlike the opcode's row, or a terminator out of place: the instruction.
    UnlikeRow(usize),
    // No such value or block, or arguments unlike the parameters: the instruction.
    NoSuchNumber(usize),
    // An order that names the wrong thing, or in the wrong place: the entry.
    BadOrder(usize),
    // A use that its definition does not come before: the instruction.
    UseBeforeDefinition(usize),
    // More registers than the limit: the value at opening, else the entry.
    RegisterLimit(usize),
    // The backend does not lower this instruction, or this branch.
    InstDeclined(usize),
    BranchDeclined(usize),
    // Storage too short or a limit out of range (0), or a list full (the entry, 0 at building).
    NoRoom(usize),
    // A wrong number of results or registers, or a register never given out: the instruction.
    BadAnswer(usize),
    // An alias back to itself: the instruction.
    CircularAlias(usize),
    // A value of a type that the machine does not have.
    UnsupportedType(usize),
    // A call that names no value or instruction: the number asked for.
    NoSuchEntity(usize),
    // A request for a value of a sunk instruction; reached, closed or unordered; counted out.
    RequestSunk(usize),
    RequestTooLate(usize),
    RequestCount(usize),
    // A sinking of no effect; without a scan colour; with a result requested; out of turn.
    SinkNoEffect(usize),
    SinkNoColour(usize),
    SinkRequested(usize),
    SinkOutOfTurn(usize),
    // The pending list is full: its length.
    PendingFull(usize),
    // A temporary of a type that the machine does not have: the type's number.
    UnsupportedTemporary(usize),
}

impl Refusal {
    // The number in the table of refusals. Not `From`: a number alone is no refusal.
    pub fn number(self) -> u8
        ensures { result ≡ refusal_number self }
    {
        match self {
            Refusal::Unreadable(_) => 1,
            Refusal::OverLimit(_) => 2,
            Refusal::UnlikeRow(_) => 3,
            Refusal::NoSuchNumber(_) => 4,
            Refusal::BadOrder(_) => 5,
            Refusal::UseBeforeDefinition(_) => 6,
            Refusal::RegisterLimit(_) => 7,
            Refusal::InstDeclined(_) => 8,
            Refusal::BranchDeclined(_) => 9,
            Refusal::NoRoom(_) => 10,
            Refusal::BadAnswer(_) => 11,
            Refusal::CircularAlias(_) => 12,
            Refusal::UnsupportedType(_) => 13,
            Refusal::NoSuchEntity(_) => 21,
            Refusal::RequestSunk(_) => 22,
            Refusal::RequestTooLate(_) => 23,
            Refusal::RequestCount(_) => 24,
            Refusal::SinkNoEffect(_) => 25,
            Refusal::SinkNoColour(_) => 26,
            Refusal::SinkRequested(_) => 27,
            Refusal::SinkOutOfTurn(_) => 28,
            Refusal::PendingFull(_) => 29,
            Refusal::UnsupportedTemporary(_) => 30,
        }
    }

    // Where the fault is, as the table says.
    pub fn place(self) -> usize
        ensures { result ≡ refusal_place self }
    {
        match self {
            Refusal::Unreadable(p)
            | Refusal::OverLimit(p)
            | Refusal::UnlikeRow(p)
            | Refusal::NoSuchNumber(p)
            | Refusal::BadOrder(p)
            | Refusal::UseBeforeDefinition(p)
            | Refusal::RegisterLimit(p)
            | Refusal::InstDeclined(p)
            | Refusal::BranchDeclined(p)
            | Refusal::NoRoom(p)
            | Refusal::BadAnswer(p)
            | Refusal::CircularAlias(p)
            | Refusal::UnsupportedType(p)
            | Refusal::NoSuchEntity(p)
            | Refusal::RequestSunk(p)
            | Refusal::RequestTooLate(p)
            | Refusal::RequestCount(p)
            | Refusal::SinkNoEffect(p)
            | Refusal::SinkNoColour(p)
            | Refusal::SinkRequested(p)
            | Refusal::SinkOutOfTurn(p)
            | Refusal::PendingFull(p)
            | Refusal::UnsupportedTemporary(p) => p,
        }
    }
}

impl Display for Refusal {
    ghost output = { λ e. Some (refusal_name e) };

    fn fmt<W: Write>(&self, f: &mut Formatter<W>) -> fmt::Result {
        write!(f, "refused {} at {}", self.number(), self.place())
    }
}

impl Error for Refusal {}
