// Blocks, instructions and values, each a type of its own around its number.
ghost use Rattle.std.proofs.Common.{ap};
ghost use Rattle.std.specs.Prelude.{◌≡◌, ℕ, Some};
ghost use Rattle.clif.specs.Names.{value_name, block_name, entry_name};

use std::fmt;
use std::fmt::{Display, Formatter, Write};

// An entity of a function, known by its number. There is no `new`: it would ask something of its callers.
pub trait EntityRef: Copy {
    ghost number: { Self → ℕ };

    fn index(self) -> usize
        ensures { result ≡ number self };

    // Entities of one kind with the same number are one.
    ghost one_each: { (x y : Self) → number x ≡ number y → x ≡ y };
}

#[derive(Clone, Copy, PartialEq, Eq, Debug)]
pub struct Block(pub u16);

#[derive(Clone, Copy, PartialEq, Eq, Debug)]
pub struct Inst(pub u16);

#[derive(Clone, Copy, PartialEq, Eq, Debug)]
pub struct Value(pub u16);

// An impl for each, since no macro may write a ghost member.
impl EntityRef for Block {
    ghost number = { λ b. b.0 };

    ghost one_each = { λ x y e. ap (λ n. record { 0 = n }) e };

    fn index(self) -> usize {
        usize::from(self.0)
    }
}

impl EntityRef for Inst {
    ghost number = { λ i. i.0 };

    ghost one_each = { λ x y e. ap (λ n. record { 0 = n }) e };

    fn index(self) -> usize {
        usize::from(self.0)
    }
}

impl EntityRef for Value {
    ghost number = { λ v. v.0 };

    ghost one_each = { λ x y e. ap (λ n. record { 0 = n }) e };

    fn index(self) -> usize {
        usize::from(self.0)
    }
}

// An entry of the order: a block, or an edge by its predecessor and destination index.
#[derive(Clone, Copy, PartialEq, Eq, Debug)]
pub enum Entry {
    Block(Block),
    Edge(Block, u8),
}

impl Display for Block {
    ghost output = { λ b. Some (block_name b) };

    fn fmt<W: Write>(&self, f: &mut Formatter<W>) -> fmt::Result {
        write!(f, "block{}", self.0)
    }
}

impl Display for Value {
    ghost output = { λ v. Some (value_name v) };

    fn fmt<W: Write>(&self, f: &mut Formatter<W>) -> fmt::Result {
        write!(f, "v{}", self.0)
    }
}

impl Display for Entry {
    ghost output = { λ e. Some (entry_name e) };

    fn fmt<W: Write>(&self, f: &mut Formatter<W>) -> fmt::Result {
        match self {
            Entry::Block(block) => write!(f, "{block}"),
            Entry::Edge(pred, k) => write!(f, "edge {}.{k}", pred.0),
        }
    }
}
