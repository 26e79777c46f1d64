// The records of a file. They borrow its bytes.
ghost use Rattle.std.specs.Prelude.{ℕ, List};
ghost use Rattle.clif.specs.declared.entities.Entry.{Entry};
ghost use Rattle.clif.specs.declared.types.«Type».{«Type» as Ty};
ghost use Rattle.reader.specs.Data.{Destination, Instruction};
ghost use Rattle.reader.specs.Reading.{destination as destination_field, destinations as destinations_field, instruction as instruction_field, repeated, heading as heading_field, order_entry, here};
ghost use Rattle.reader.specs.Records.{destination_of, destinations_of, destinations_left, instruction_of, heading_of};
ghost use Rattle.reader.specs.Told.{ReadAs};

use crate::fields::{Field, Fields};
use crate::lists::{Types, Words};
use crate::totals::Kind;
use clif::entities::{Block, Entry};
use clif::opcodes::Opcode;
use clif::refusals::Refusal;

// A destination: its block, and its arguments.
#[derive(Clone, Copy)]
pub struct DestRecord<'a> {
    pub target: Block,
    pub args: Words<'a>,
}

// The destinations of an instruction that are still to be handed out.
#[derive(Clone, Copy)]
pub struct Destinations<'a> {
    pub(crate) left: usize,
    pub(crate) fields: Fields<'a>,
}

// An instruction.
#[derive(Clone, Copy)]
pub struct InstRecord<'a> {
    pub place: usize,
    pub opcode: Opcode,
    pub operands: Words<'a>,
    pub immediate: Option<u64>,
    pub results: Types<'a>,
    pub destinations: Destinations<'a>,
    pub flag: Option<bool>,
    pub location: Option<u32>,
}

// A block up to its instructions: its parameters, and how many instructions follow.
#[derive(Clone, Copy)]
pub struct BlockRecord<'a> {
    pub place: usize,
    pub params: Types<'a>,
    pub insts: u16,
}

// An entry of the order.
#[derive(Clone, Copy)]
pub struct OrderRecord {
    pub place: usize,
    pub entry: Entry,
}

// What the reader hands out.
#[derive(Clone, Copy)]
pub enum Record<'a> {
    Block(BlockRecord<'a>),
    Inst(InstRecord<'a>),
    Order(OrderRecord),
}

impl<'a> Iterator for Destinations<'a> {
    ghost use Rattle.std.specs.Iterator.{YieldsFirstBy, at_most};

    type Item = DestRecord<'a>;

    ghost next_gives = { YieldsFirstBy destination_of destinations_of };

    ghost remaining = { λ d. at_most (destinations_left d) };

    fn next(&mut self) -> Option<DestRecord<'a>> {
        self.left = self.left.checked_sub(1)?;
        let Ok(next) = DestRecord::read(&mut self.fields) else {
            self.left = 0;
            return None;
        };
        Some(next)
    }
}

impl<'a> Field<'a> for DestRecord<'a> {
    ghost Meaning = { Destination };

    ghost meaning = { destination_of };

    ghost reading = { destination_field };

    fn read(fields: &mut Fields<'a>) -> Result<DestRecord<'a>, Refusal> {
        Ok(DestRecord {
            target: Block::read(fields)?,
            args: fields.uses(0)?,
        })
    }
}

impl<'a> Fields<'a> {
    fn destinations(&mut self, n: usize) -> Result<Destinations<'a>, Refusal>
        ensures { ReadAs destinations_of (repeated n destination_field) self.old result self.new }
    {
        let all = Destinations {
            left: n,
            fields: *self,
        };
        // Not over a copy of `all`: at a fault it ends without saying where.
        for _k in 0..n {
            DestRecord::read(self)?;
        }
        Ok(all)
    }
}

impl<'a> Field<'a> for Destinations<'a> {
    ghost Meaning = { List Destination };

    ghost meaning = { destinations_of };

    ghost reading = { destinations_field };

    fn read(fields: &mut Fields<'a>) -> Result<Destinations<'a>, Refusal> {
        let n = fields.ranged(1, 255)?;
        fields.destinations(usize::from(n))
    }
}

impl<'a> Field<'a> for InstRecord<'a> {
    ghost Meaning = { ℕ × Instruction };

    ghost meaning = { λ x. (x.place, instruction_of x) };

    ghost reading = { here instruction_field };

    fn read(fields: &mut Fields<'a>) -> Result<InstRecord<'a>, Refusal> {
        let place = fields.place();
        // The bits are the format's own numbers; each is used once, beside the name of its part.
        let map = fields.ranged(0, 63)?;
        let none = Destinations {
            left: 0,
            fields: *fields,
        };
        Ok(InstRecord {
            place,
            opcode: Opcode::read(fields)?,
            operands: fields.standing(map, 1, Words { bytes: &[] })?,
            immediate: fields.standing(map, 2, None)?,
            results: fields.standing(map, 4, Types { numbers: &[] })?,
            destinations: fields.standing(map, 8, none)?,
            flag: fields.standing(map, 16, None)?,
            location: fields.standing(map, 32, None)?,
        })
    }
}

impl<'a> Field<'a> for BlockRecord<'a> {
    ghost Meaning = { ℕ × (List Ty × ℕ) };

    ghost meaning = { λ b. (b.place, heading_of b) };

    ghost reading = { here heading_field };

    fn read(fields: &mut Fields<'a>) -> Result<BlockRecord<'a>, Refusal> {
        let place = fields.place();
        let map = fields.ranged(2, 3)?;
        Ok(BlockRecord {
            place,
            params: fields.standing(map, 1, Types { numbers: &[] })?,
            insts: fields.count(Kind::Insts)?,
        })
    }
}

impl<'a> Field<'a> for OrderRecord {
    ghost Meaning = { ℕ × Entry };

    ghost meaning = { λ o. (o.place, o.«entry») };

    ghost reading = { here order_entry };

    fn read(fields: &mut Fields<'a>) -> Result<OrderRecord, Refusal> {
        let place = fields.place();
        let map = fields.ranged(1, 2)?;
        let block = Block::read(fields)?;
        let entry = if map == 1 {
            Entry::Block(block)
        } else {
            Entry::Edge(block, u8::read(fields)?)
        };
        Ok(OrderRecord { place, entry })
    }
}
