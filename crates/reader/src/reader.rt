// The reader: hands out the records of a file one by one.
ghost use Rattle.std.specs.Prelude.{◌≡◌, ℕ, ◌<◌, IfOk, ◌==◌};
ghost use Rattle.reader.specs.Laws.{FormatLaw};
ghost use Rattle.reader.specs.Reading.{read};
ghost use Rattle.reader.specs.Stream.{begun, due_count, insts_left, Handed};
ghost use Rattle.reader.specs.Told.{ReadAs};

use crate::fields::{Field, Fields};
use crate::records::{BlockRecord, InstRecord, OrderRecord, Record};
use crate::totals::{Kind, Totals};
use clif::refusals::Refusal;

// What is still to come: instructions of the block at hand, further blocks, and entries once their
// count is read.
#[derive(Clone, Copy)]
pub struct Reader<'a> {
    pub(crate) fields: Fields<'a>,
    pub(crate) insts: u16,
    pub(crate) blocks: u16,
    pub(crate) entries: Option<u16>,
}

impl<'a> Fields<'a> {
    // How many entries are due; reads their count the first time.
    fn entries_due(&mut self, known: Option<u16>) -> Result<u16, Refusal>
        ensures { ReadAs (λ (n : ℕ). n) (due_count known) self.old result self.new }
    {
        match known {
            Some(n) => Ok(n),
            None => self.count(Kind::Entries),
        }
    }
}

impl<'a> Reader<'a> {
    // A reader in front of the first block.
    pub fn new(file: &'a [u8]) -> Result<Reader<'a>, Refusal>
        ensures begins { read file.now ≡ begun result }
        ensures law { FormatLaw file.now }
        ensures fresh { IfOk result (λ x. insts_left x ≡ 0) }
    {
        let mut fields = Fields {
            size: file.len(),
            rest: file,
            totals: Totals::default(),
        };
        let blocks = fields.count(Kind::Blocks)?;
        Ok(Reader {
            fields,
            insts: 0,
            blocks,
            entries: None,
        })
    }

    // The next record; none at the end of the file. No `Iterator`: a refusal would be an item like
    // the records, and a loop over it could not ask `at_block_end` in between.
    pub fn next(&mut self) -> Result<Option<Record<'a>>, Refusal>
        ensures { Handed self.old result self.new }
    {
        if self.insts > 0 {
            let inst = InstRecord::read(&mut self.fields)?;
            self.insts -= 1;
            return Ok(Some(Record::Inst(inst)));
        }
        if self.blocks > 0 {
            let block = BlockRecord::read(&mut self.fields)?;
            self.blocks -= 1;
            self.insts = block.insts;
            return Ok(Some(Record::Block(block)));
        }
        let count = self.fields.entries_due(self.entries)?;
        if count > 0 {
            let order = OrderRecord::read(&mut self.fields)?;
            self.entries = Some(count - 1);
            return Ok(Some(Record::Order(order)));
        }
        // Nothing may follow the last entry.
        if self.fields.rest.is_empty() {
            Ok(None)
        } else {
            Err(Refusal::Unreadable(self.fields.place()))
        }
    }

    // Whether no further instruction of the block at hand comes.
    pub fn at_block_end(&self) -> bool
        ensures { result ≡ (insts_left self.now == 0) }
    {
        self.insts == 0
    }
}
