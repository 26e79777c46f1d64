// The opcodes, with what an instruction of each must look like.
ghost use Rattle.std.specs.Prelude.{◌≡◌, Some, false};
ghost use Rattle.clif.specs.Find.{decoded};
ghost use Rattle.clif.specs.Names.{opcode_name};
ghost use Rattle.clif.specs.Rows.{opcode_number, opcode_of, row_of, has_class, within_span, counted, make_row};

use crate::numbers::UnknownNumber;
use std::fmt;
use std::fmt::{Display, Formatter, Write};

#[derive(Clone, Copy, PartialEq, Eq, Debug)]
pub enum Opcode {
    Iconst = 1,
    Iadd = 3,
    Imul = 5,
    Umulhi = 6,
    Icmp = 8,
    UaddOverflow = 9,
    Load = 14,
    Store = 15,
    Call = 17,
    Jump = 21,
    Brif = 22,
    Return = 24,
    Trap = 25,
}

// A count from `least` to `most`.
#[derive(Clone, Copy)]
pub struct Span {
    pub least: u8,
    pub most: u8,
}

// What an instruction does besides computing its results.
#[derive(Clone, Copy)]
pub struct Class {
    pub load: bool,
    pub store: bool,
    pub call: bool,
    pub branch: bool,
    pub terminator: bool,
}

// What an opcode's instructions must look like, and their class.
#[derive(Clone, Copy)]
pub struct Row {
    pub operands: Span,
    pub results: Span,
    pub immediate: bool,
    pub flag: bool,
    pub destinations: Span,
    pub class: Class,
}

const PURE: Class = Class {
    load: false,
    store: false,
    call: false,
    branch: false,
    terminator: false,
};

const LOAD: Class = Class { load: true, ..PURE };

const STORE: Class = Class {
    store: true,
    ..PURE
};

const CALL: Class = Class { call: true, ..PURE };

const EXIT: Class = Class {
    terminator: true,
    ..PURE
};

const BRANCH: Class = Class {
    branch: true,
    ..EXIT
};

impl Span {
    pub fn holds(self, n: usize) -> bool
        ensures { result ≡ within_span self n }
    {
        self.least as usize <= n && n <= self.most as usize
    }
}

impl Class {
    // Whether the class is any at all, which makes an instruction an effect.
    pub fn any(self) -> bool
        ensures { result ≡ has_class self }
    {
        self.load || self.store || self.call || self.branch || self.terminator
    }
}

fn exactly(n: u8) -> Span
    ensures { result ≡ counted n }
{
    Span { least: n, most: n }
}

fn plain(operands: Span, results: Span, class: Class) -> Row
    ensures { result ≡ make_row operands results false false (counted 0) class }
{
    Row {
        operands,
        results,
        immediate: false,
        flag: false,
        destinations: exactly(0),
        class,
    }
}

// The opcode that a byte of a file stands for.
impl TryFrom<u8> for Opcode {
    type Error = UnknownNumber;

    ghost try_from_gives = { λ n r. r ≡ decoded opcode_of n };

    fn try_from(n: u8) -> Result<Opcode, UnknownNumber> {
        match n {
            1 => Ok(Opcode::Iconst),
            3 => Ok(Opcode::Iadd),
            5 => Ok(Opcode::Imul),
            6 => Ok(Opcode::Umulhi),
            8 => Ok(Opcode::Icmp),
            9 => Ok(Opcode::UaddOverflow),
            14 => Ok(Opcode::Load),
            15 => Ok(Opcode::Store),
            17 => Ok(Opcode::Call),
            21 => Ok(Opcode::Jump),
            22 => Ok(Opcode::Brif),
            24 => Ok(Opcode::Return),
            25 => Ok(Opcode::Trap),
            _ => Err(UnknownNumber(n)),
        }
    }
}

impl From<Opcode> for u8 {
    ghost from_gives = { λ o n. n ≡ opcode_number o };

    fn from(opcode: Opcode) -> u8 {
        opcode as u8
    }
}

impl Opcode {
    // The opcode's row of the table in docs/format.md.
    pub fn row(self) -> Row
        ensures { result ≡ row_of self }
    {
        match self {
            Opcode::Iconst => Row {
                immediate: true,
                ..plain(exactly(0), exactly(1), PURE)
            },
            Opcode::Iadd | Opcode::Imul | Opcode::Umulhi | Opcode::Icmp => plain(
                exactly(2),
                exactly(1),
                PURE,
            ),
            Opcode::UaddOverflow => plain(exactly(2), exactly(2), PURE),
            Opcode::Load => Row {
                flag: true,
                ..plain(exactly(1), exactly(1), LOAD)
            },
            Opcode::Store => plain(exactly(2), exactly(0), STORE),
            Opcode::Call => plain(Span { least: 0, most: 8 }, Span { least: 0, most: 2 }, CALL),
            Opcode::Jump => Row {
                destinations: exactly(1),
                ..plain(exactly(0), exactly(0), BRANCH)
            },
            Opcode::Brif => Row {
                destinations: exactly(2),
                ..plain(exactly(1), exactly(0), BRANCH)
            },
            Opcode::Return => plain(Span { least: 0, most: 4 }, exactly(0), EXIT),
            Opcode::Trap => plain(exactly(0), exactly(0), EXIT),
        }
    }
}

impl Display for Opcode {
    ghost output = { λ o. Some (opcode_name o) };

    fn fmt<W: Write>(&self, f: &mut Formatter<W>) -> fmt::Result {
        f.write_str(match self {
            Opcode::Iconst => "iconst",
            Opcode::Iadd => "iadd",
            Opcode::Imul => "imul",
            Opcode::Umulhi => "umulhi",
            Opcode::Icmp => "icmp",
            Opcode::UaddOverflow => "uadd_overflow",
            Opcode::Load => "load",
            Opcode::Store => "store",
            Opcode::Call => "call",
            Opcode::Jump => "jump",
            Opcode::Brif => "brif",
            Opcode::Return => "return",
            Opcode::Trap => "trap",
        })
    }
}
