// Counted lists of a file, handed out as parts of it.
ghost use Rattle.std.specs.Prelude.{◌≡◌, List, length, take};
ghost use Rattle.clif.specs.Types.{type_of};
ghost use Rattle.reader.specs.Parts.{typed_front};

use crate::fields::{Field, Fields};
use crate::totals::Kind;
use clif::entities::Value;
use clif::refusals::Refusal;
use clif::types::Type;

// The values that words of a file name, still to be handed out. Beside `Types` and not one type with it: every word names a
// value, but a byte a type only where that was tested, which `Types` remembers.
#[derive(Clone, Copy)]
pub struct Words<'a> {
    pub(crate) bytes: &'a [u8],
}

// The types that bytes of a file name, by their numbers, still to be handed out.
#[derive(Clone, Copy)]
pub struct Types<'a> {
    pub(crate) numbers: &'a [u8],
    ghost each: { typed_front numbers.now ≡ length numbers.now },
}

impl<'a> Iterator for Words<'a> {
    ghost use Rattle.std.specs.Iterator.{YieldsFirst, item_count};
    ghost use Rattle.reader.specs.Records.{values_in};

    type Item = Value;

    ghost next_gives = { YieldsFirst values_in };

    ghost remaining = { item_count values_in };

    fn next(&mut self) -> Option<Value> {
        let (word, rest) = self.bytes.split_first_chunk()?;
        self.bytes = rest;
        Some(Value(u16::from_le_bytes(*word)))
    }
}

impl<'a> ExactSizeIterator for Words<'a> {
    #[tactic(auto, using(crate::proofs::Lengths::words_length))]
    fn len(&self) -> usize {
        self.bytes.len() / 2
    }
}

impl<'a> Iterator for Types<'a> {
    ghost use Rattle.std.specs.Iterator.{YieldsFirst, item_count};
    ghost use Rattle.reader.specs.Records.{types_in};

    type Item = Type;

    ghost next_gives = { YieldsFirst types_in };

    ghost remaining = { item_count types_in };

    fn next(&mut self) -> Option<Type> {
        let (number, rest) = self.numbers.split_first()?;
        self.numbers = rest;
        Type::try_from(*number).ok()
    }
}

impl<'a> ExactSizeIterator for Types<'a> {
    #[tactic(auto, using(crate::proofs::Lengths::types_length))]
    fn len(&self) -> usize {
        self.numbers.len()
    }
}

// How many of the first `n` bytes name types, up to one that does not.
fn typed(bytes: &[u8], n: usize) -> usize
    ensures { result ≡ typed_front (take n bytes.now) }
{
    bytes
        .iter()
        .take(n)
        .take_while(|b| Type::try_from(**b).is_ok())
        .count()
}

impl<'a> Fields<'a> {
    ghost use Rattle.reader.specs.Reading.{repeated, value, named, uses as uses_field};
    ghost use Rattle.reader.specs.Records.{values_in, types_in};
    ghost use Rattle.reader.specs.Told.{ReadAs};

    // `n` words; where the file ends inside one, that one is at fault.
    fn words(&mut self, n: u8) -> Result<Words<'a>, Refusal>
        ensures { ReadAs values_in (repeated n value) self.old result self.new }
    {
        match self.rest.split_at_checked(2 * usize::from(n)) {
            Some((bytes, rest)) => {
                self.rest = rest;
                Ok(Words { bytes })
            }
            None => Err(Refusal::Unreadable(self.size.saturating_sub(self.rest.len() % 2))),
        }
    }

    // `n` bytes that name types.
    fn types(&mut self, n: u8) -> Result<Types<'a>, Refusal>
        ensures { ReadAs types_in (repeated n (named type_of)) self.old result self.new }
    {
        let n = usize::from(n);
        let good = typed(self.rest, n);
        if good < n {
            return Err(Refusal::Unreadable(self.size.saturating_sub(self.rest.len() - good)));
        }
        let (numbers, rest) = self.rest.split_at(n);
        self.rest = rest;
        Ok(Types { numbers })
    }

    // Operands, or the arguments of a destination.
    pub(crate) fn uses(&mut self, least: usize) -> Result<Words<'a>, Refusal>
        ensures { ReadAs values_in (uses_field least) self.old result self.new }
    {
        let n = self.short_count(least, Kind::Operands)?;
        self.words(n)
    }
}

// Operands.
impl<'a> Field<'a> for Words<'a> {
    ghost use Rattle.clif.specs.declared.entities.Value.{Value};
    ghost use Rattle.reader.specs.Reading.{uses as uses_field};
    ghost use Rattle.reader.specs.Records.{values_in};

    ghost Meaning = { List Value };

    ghost meaning = { values_in };

    ghost reading = { uses_field 1 };

    fn read(fields: &mut Fields<'a>) -> Result<Words<'a>, Refusal> {
        fields.uses(1)
    }
}

// The types of parameters or results.
impl<'a> Field<'a> for Types<'a> {
    ghost use Rattle.clif.specs.declared.types.«Type».{«Type» as Ty};
    ghost use Rattle.reader.specs.Reading.{types as types_field};
    ghost use Rattle.reader.specs.Records.{types_in};

    ghost Meaning = { List Ty };

    ghost meaning = { types_in };

    ghost reading = { types_field };

    fn read(fields: &mut Fields<'a>) -> Result<Types<'a>, Refusal> {
        let n = fields.short_count(1, Kind::Values)?;
        fields.types(n)
    }
}
