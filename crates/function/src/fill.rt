// Fills the tables from a file, record by record. Entities are made of numbers by `as`, since `EntityRef` has no `new`.
ghost use Rattle.std.specs.Prelude.{cond, [], ◌≡◌, ℕ, ◌+◌, ◌^◌, ◌<◌, ◌≤◌, List, ◌++◌, map, length, Some};
ghost use Rattle.function.specs.Cells.{pushed_all};
ghost use Rattle.function.specs.Filling.{numbered, placed, KeptOf, store_block, store_inst, store_entry, noted};
ghost use Rattle.function.specs.Numbering.{defined};
ghost use Rattle.reader.specs.Records.{destinations_of, instruction_of, types_in};
ghost use Rattle.std.specs.List.{flat_map};

use crate::rows::{BlockData, DestData, InstData, ValueData, ValueDef};
use crate::table::Table;
use crate::tables::{Tables, edge_place};
use clif::entities::{Block, EntityRef, Entry, Inst, Value};
use reader::records::{BlockRecord, Destinations, InstRecord};

// The values up to `n`, each with its number.
fn number(numbers: &mut Table<Value, 2048>, n: usize)
    requires { n ≤ 2048 }
    ensures { numbers.new ≡ numbered n numbers.old }
{
    numbers.extend((numbers.len()..n).map(|v| Value(v as u16)));
}

// What is kept of an instruction's destinations: how many they are, and the first two.
#[derive(Drop)]
struct Kept {
    count: usize,
    places: Table<Option<DestData>, 2>,
}

// The arguments of destinations, and what is kept of them. Counted by hand, since the same pass stores the arguments.
fn push_destinations(uses: &mut Table<Value, 4096>, destinations: Destinations) -> Kept
    ensures kept { KeptOf result (placed (destinations_of destinations.entry) uses.old) }
    ensures pushed { uses.new ≡ pushed_all 4096 (flat_map (λ d. d.args) (destinations_of destinations.entry)) uses.old }
{
    let mut kept = Kept {
        count: 0,
        places: Table::new(None),
    };
    for d in destinations {
        kept.count += 1;
        kept.places.push(Some(DestData {
            target: d.target,
            first_arg: uses.len(),
            args: d.args.len(),
        }));
        uses.extend(d.args);
    }
    kept
}

// The two places of a block's last instruction. A function of its own: with the `if` inside
// `store_inst`, the proof that the row has the table's lengths does not close behind it.
fn push_places(
    destinations: &mut Table<Option<DestData>, 128>,
    last: bool,
    places: &Table<Option<DestData>, 2>,
)
    ensures { destinations.new ≡ pushed_all 128 (cond last places.now.rows []) destinations.old }
{
    if last {
        destinations.extend(places.rows().iter().copied());
    }
}

// Notes an entry at a place that has none yet.
fn note<const N: usize>(entries: &mut Table<Option<usize>, N>, i: usize, e: usize)
    ensures { entries.new ≡ noted i e entries.old }
{
    entries.write(i, entries.read(i, None).or(Some(e)));
}

impl Tables {
    pub(crate) fn store_block(&mut self, b: BlockRecord)
        ensures { self.new ≡ store_block (types_in b.entry.params) b.entry.insts self.old }
    {
        let block = Block(self.blocks.len() as u16);
        let row = BlockData {
            first_param: self.values.len(),
            params: b.params.len(),
            first_inst: self.insts.len(),
            insts: usize::from(b.insts),
        };
        self.values.extend(
            b.params.enumerate().map(|(k, ty)| {
                let def = ValueDef::Param(block, k);
                Some(ValueData { ty, def })
            }),
        );
        number(&mut self.numbers, self.values.len());
        self.blocks.push(Some(row));
    }

    pub(crate) fn store_inst(&mut self, x: InstRecord, last: bool)
        ensures { self.new ≡ store_inst last (instruction_of x.entry) self.old }
    {
        let block = Block(self.blocks.len().saturating_sub(1) as u16);
        let inst = Inst(self.insts.len() as u16);
        let first_use = self.uses.len();
        let first_result = self.values.len();
        let results = x.results.len();
        // As in `store_block`, but for what defines the values: one function for both would take a closure, and is no shorter.
        self.values.extend(
            x.results.enumerate().map(|(k, ty)| {
                let def = ValueDef::Result(inst, k);
                Some(ValueData { ty, def })
            }),
        );
        number(&mut self.numbers, self.values.len());
        self.uses.extend(x.operands);
        let kept = push_destinations(&mut self.uses, x.destinations);
        push_places(&mut self.destinations, last, &kept.places);
        self.insts.push(Some(InstData {
            block,
            last,
            opcode: x.opcode,
            first_use,
            operands: x.operands.len(),
            uses: self.uses.len().saturating_sub(first_use),
            first_result,
            results,
            destinations: kept.count,
            immediate: x.immediate,
            flag: x.flag,
            location: x.location,
        }));
    }

    pub(crate) fn store_entry(&mut self, x: Entry)
        ensures { self.new ≡ store_entry x self.old }
    {
        let e = self.order.len();
        self.order.push(Some(x));
        match x {
            Entry::Block(b) => note(&mut self.block_entries, b.index(), e),
            Entry::Edge(b, k) => {
                if let Some(i) = edge_place(b, usize::from(k)) {
                    note(&mut self.edge_entries, i, e);
                }
            }
        }
    }
}
