// The fields of a file, each a number of one or more bytes.
ghost use Rattle.std.specs.Prelude.{◌≡◌, ℕ, ◌<◌, Bool, Option, option_map};
ghost use Rattle.clif.specs.Rows.{opcode_of};
ghost use Rattle.clif.specs.declared.entities.Block.{Block};
ghost use Rattle.clif.specs.declared.opcodes.Opcode.{Opcode};
ghost use Rattle.reader.specs.Reading.{Reads, number, number_of, ranged as ranged_field, named, flag_of, admitted, count, target, present, standing};
ghost use Rattle.reader.specs.Reading.{place as place_of};
ghost use Rattle.reader.specs.Told.{spot, ReadAs};

use crate::totals::{Kind, Totals};
use clif::entities::Block;
use clif::opcodes::Opcode;
use clif::refusals::Refusal;

// What is still to be read of a file of `size` bytes, and the totals so far.
#[derive(Clone, Copy)]
pub struct Fields<'a> {
    pub(crate) size: usize,
    pub(crate) rest: &'a [u8],
    pub(crate) totals: Totals,
}

// What a file has as one field.
pub(crate) trait Field<'a>: Copy {
    ghost Meaning: { Type 0 };

    // What a value stands for.
    ghost meaning: { Self → Meaning };

    // How the bytes of the field are read.
    ghost reading: { Reads Meaning };

    fn read(fields: &mut Fields<'a>) -> Result<Self, Refusal>
        ensures { ReadAs meaning reading fields.old result fields.new };
}

impl<'a> Fields<'a> {
    // The place of the next byte.
    pub(crate) fn place(&self) -> usize
        ensures { result ≡ place_of self.now.size (spot self.now) }
    {
        self.size.saturating_sub(self.rest.len())
    }

    // A byte from `least` to `most`.
    pub(crate) fn ranged(&mut self, least: u8, most: u8) -> Result<u8, Refusal>
        ensures { ReadAs (λ (n : ℕ). n) (ranged_field least most) self.old result self.new }
    {
        let at = self.place();
        let n = u8::read(self)?;
        if (least..=most).contains(&n) {
            Ok(n)
        } else {
            Err(Refusal::Unreadable(at))
        }
    }

    // A count, already read at `at`, tested and added to its total.
    fn admit(&mut self, at: usize, n: usize, least: usize, kind: Kind) -> Result<(), Refusal>
        ensures { ReadAs (λ _. n) (λ _. admitted at n least kind) self.old result self.new }
    {
        if n < least {
            return Err(Refusal::Unreadable(at));
        }
        self.totals = self.totals.plus(kind, n).ok_or(Refusal::OverLimit(at))?;
        Ok(())
    }

    // A count of one byte. Not one function with the next: its contract would ask of a type how many bytes it has.
    pub(crate) fn short_count(&mut self, least: usize, kind: Kind) -> Result<u8, Refusal>
        ensures { ReadAs (λ (n : ℕ). n) (count 1 least kind) self.old result self.new }
    {
        let at = self.place();
        let n = u8::read(self)?;
        self.admit(at, usize::from(n), least, kind)?;
        Ok(n)
    }

    // A count of two bytes, at least 1.
    pub(crate) fn count(&mut self, kind: Kind) -> Result<u16, Refusal>
        ensures { ReadAs (λ (n : ℕ). n) (count 2 1 kind) self.old result self.new }
    {
        let at = self.place();
        let n = u16::read(self)?;
        self.admit(at, usize::from(n), 1, kind)?;
        Ok(n)
    }

    // A field that stands only where its bit of the map byte does; what else it is then.
    pub(crate) fn standing<T: Field<'a>>(
        &mut self,
        map: u8,
        bit: u8,
        absent: T,
    ) -> Result<T, Refusal>
        requires { 0 < bit }
        ensures { ReadAs T.meaning (standing map bit (T.meaning absent) T.reading) self.old result self.new }
    {
        if map / bit % 2 == 1 {
            T::read(self)
        } else {
            Ok(absent)
        }
    }
}

// The number that `K` bytes are.
impl<'a, const K: usize> Field<'a> for [u8; K] {
    ghost Meaning = { ℕ };

    ghost meaning = { number_of };

    ghost reading = { number K };

    fn read(fields: &mut Fields<'a>) -> Result<[u8; K], Refusal> {
        match fields.rest.split_first_chunk() {
            Some((front, rest)) => {
                fields.rest = rest;
                Ok(*front)
            }
            None => Err(Refusal::Unreadable(fields.place())),
        }
    }
}

// Numbers of one to eight bytes: an impl for each, since no macro may write a ghost member.
impl<'a> Field<'a> for u8 {
    ghost Meaning = { ℕ };

    ghost meaning = { λ n. n };

    ghost reading = { number 1 };

    fn read(fields: &mut Fields<'a>) -> Result<u8, Refusal> {
        Ok(u8::from_le_bytes(Field::read(fields)?))
    }
}

impl<'a> Field<'a> for u16 {
    ghost Meaning = { ℕ };

    ghost meaning = { λ n. n };

    ghost reading = { number 2 };

    fn read(fields: &mut Fields<'a>) -> Result<u16, Refusal> {
        Ok(u16::from_le_bytes(Field::read(fields)?))
    }
}

impl<'a> Field<'a> for u32 {
    ghost Meaning = { ℕ };

    ghost meaning = { λ n. n };

    ghost reading = { number 4 };

    fn read(fields: &mut Fields<'a>) -> Result<u32, Refusal> {
        Ok(u32::from_le_bytes(Field::read(fields)?))
    }
}

impl<'a> Field<'a> for u64 {
    ghost Meaning = { ℕ };

    ghost meaning = { λ n. n };

    ghost reading = { number 8 };

    fn read(fields: &mut Fields<'a>) -> Result<u64, Refusal> {
        Ok(u64::from_le_bytes(Field::read(fields)?))
    }
}

impl<'a> Field<'a> for Block {
    ghost Meaning = { Block };

    ghost meaning = { λ b. b };

    ghost reading = { target };

    fn read(fields: &mut Fields<'a>) -> Result<Block, Refusal> {
        Ok(Block(u16::read(fields)?))
    }
}

impl<'a> Field<'a> for Opcode {
    ghost Meaning = { Opcode };

    ghost meaning = { λ o. o };

    ghost reading = { named opcode_of };

    fn read(fields: &mut Fields<'a>) -> Result<Opcode, Refusal> {
        let at = fields.place();
        Opcode::try_from(u8::read(fields)?).map_err(|_| Refusal::Unreadable(at))
    }
}

// As an opcode is read, but `bool` has no `TryFrom<u8>`.
impl<'a> Field<'a> for bool {
    ghost Meaning = { Bool };

    ghost meaning = { λ b. b };

    ghost reading = { named flag_of };

    fn read(fields: &mut Fields<'a>) -> Result<bool, Refusal> {
        let at = fields.place();
        match u8::read(fields)? {
            0 => Ok(false),
            1 => Ok(true),
            _ => Err(Refusal::Unreadable(at)),
        }
    }
}

impl<'a, T: Field<'a>> Field<'a> for Option<T> {
    ghost Meaning = { Option T.Meaning };

    ghost meaning = { option_map T.meaning };

    ghost reading = { present T.reading };

    fn read(fields: &mut Fields<'a>) -> Result<Option<T>, Refusal> {
        Ok(Some(T::read(fields)?))
    }
}
