// Reads a whole file into the tables.
ghost use Rattle.std.specs.Prelude.{◌≡◌};
ghost use Rattle.function.specs.Filling.{store_record, stored_file, answered};
ghost use Rattle.function.specs.Holding.{Filled};
ghost use Rattle.reader.specs.Laws.{FormatLaw};

use crate::tables::Tables;
use clif::refusals::Refusal;
use reader::reader::Reader;
use reader::records::Record;

impl Tables {
    fn store(&mut self, item: Record, last: bool)
        ensures { self.new ≡ store_record item.entry last self.old }
    {
        match item {
            Record::Block(b) => self.store_block(b),
            Record::Inst(x) => self.store_inst(x, last),
            Record::Order(o) => self.store_entry(o.entry),
        }
    }

    fn store_file(&mut self, file: &[u8]) -> Result<(), Refusal>
        ensures stored { stored_file file.now self.old ≡ answered result self.new }
        ensures law { FormatLaw file.now }
    {
        let mut reader = Reader::new(file)?;
        while let Some(item) = reader.next()? {
            self.store(item, reader.at_block_end());
        }
        Ok(())
    }

    // Reads a file; after a refusal every table is zero.
    pub fn fill(&mut self, file: &[u8]) -> Result<(), Refusal>
        ensures filled { Filled file.now result self.new }
        ensures law { FormatLaw file.now }
    {
        self.clear();
        let answer = self.store_file(file);
        if answer.is_err() {
            self.clear();
        }
        answer
    }
}
