// The tables of a function, as long as the limits of a file. The caller lends them.
ghost use Rattle.std.specs.Prelude.{◌≡◌};
ghost use Rattle.function.specs.Holding.{edge_place, zero_store};

use crate::rows::{BlockData, DestData, InstData, ValueData};
use crate::table::Table;
use clif::entities::{Block, EntityRef, Entry, Value};

#[derive(Drop)]
pub struct Tables {
    pub(crate) blocks: Table<Option<BlockData>, 64>,
    pub(crate) insts: Table<Option<InstData>, 1024>,
    pub(crate) values: Table<Option<ValueData>, 2048>,
    // Every value, by number: parameters and results are parts of it.
    pub(crate) numbers: Table<Value, 2048>,
    // Operands and destination arguments, instruction by instruction.
    pub(crate) uses: Table<Value, 4096>,
    // Two places for each block: the destinations of its last instruction.
    pub(crate) destinations: Table<Option<DestData>, 128>,
    pub(crate) order: Table<Option<Entry>, 128>,
    // The first entry that names a block, or an edge: two places for each block. Not in the rows of blocks and destinations,
    // which are written once, before the order is read.
    pub(crate) block_entries: Table<Option<usize>, 64>,
    pub(crate) edge_entries: Table<Option<usize>, 128>,
}

// The place of a block's edge in a table with two places for each block.
pub(crate) fn edge_place(block: Block, k: usize) -> Option<usize>
    ensures { result ≡ edge_place block.0 k }
{
    (k < 2).then(|| 2 * block.index() + k)
}

impl Tables {
    // Tables of nothing.
    pub fn new() -> Tables
        ensures { result ≡ zero_store }
    {
        Tables {
            blocks: Table::new(None),
            insts: Table::new(None),
            values: Table::new(None),
            numbers: Table::new(Value(0)),
            uses: Table::new(Value(0)),
            destinations: Table::new(None),
            order: Table::new(None),
            block_entries: Table::new(None),
            edge_entries: Table::new(None),
        }
    }

    // Makes every table zero.
    pub fn clear(&mut self)
        ensures { self.new ≡ zero_store }
    {
        *self = Tables::new();
    }
}
