// The questions that a function answers. What does not exist is None, an empty slice or 0. Each clause is said of every
// function that the tables show: why no type says it once stands at `Shows`.
ghost use Rattle.std.specs.Prelude.{◌≡◌, ℕ, ◌≤◌, length, None, slice_index_or, slice_get};
ghost use Rattle.function.specs.Answers.{Shows, tables_of, list_in, option_in, number_in, inst_of, all_insts, params_of, results_of, first_of, end_of, block_of, last_of, destination_of_block, call_of, type_of_value, def_of_value, entry_of_block, entry_of_edge};
ghost use Rattle.function.specs.Numbering.{uses_of, value_rows};
ghost use Rattle.reader.specs.Data.{Func};
ghost use Rattle.std.specs.Option.{option_map};

use crate::function::{BlockCall, Function};
use crate::rows::{BlockData, InstData, ValueData, ValueDef};
use crate::tables::{Tables, edge_place};
use clif::entities::{Block, EntityRef, Entry, Inst, Value};
use clif::opcodes::Opcode;
use clif::types::Type;

impl Tables {
    // The function that the tables hold.
    pub fn function(&self) -> Function<'_>
        ensures { tables_of result ≡ self.now }
    {
        Function { tables: self }
    }
}

impl<'a> Function<'a> {
    fn block_data(self, block: Block) -> Option<BlockData>
        ensures { result ≡ slice_index_or self.entry.tables.now.blocks.rows block.0 None }
    {
        self.tables.blocks.read(block.index(), None)
    }

    fn inst_data(self, inst: Inst) -> Option<InstData>
        ensures { result ≡ slice_index_or self.entry.tables.now.insts.rows inst.0 None }
    {
        self.tables.insts.read(inst.index(), None)
    }

    fn value_data(self, value: Value) -> Option<ValueData>
        ensures { result ≡ slice_index_or self.entry.tables.now.values.rows value.0 None }
    {
        self.tables.values.read(value.index(), None)
    }

    pub fn num_blocks(self) -> usize
        ensures value { (f : Func) → Shows self.entry f → result ≡ length f.blocks }
        ensures bound { result ≤ 64 }
    {
        self.tables.blocks.len()
    }

    pub fn num_insts(self) -> usize
        ensures value { (f : Func) → Shows self.entry f → result ≡ length (all_insts f) }
        ensures bound { result ≤ 1024 }
    {
        self.tables.insts.len()
    }

    pub fn num_values(self) -> usize
        ensures value { (f : Func) → Shows self.entry f → result ≡ length (value_rows f) }
        ensures bound { result ≤ 2048 }
    {
        self.tables.values.len()
    }

    pub fn num_entries(self) -> usize
        ensures value { (f : Func) → Shows self.entry f → result ≡ length f.order }
        ensures bound { result ≤ 128 }
    {
        self.tables.order.len()
    }

    pub fn block_params(self, block: Block) -> &'a [Value]
        ensures { (f : Func) → Shows self.entry f → result.now ≡ params_of f block.0 }
    {
        self.block_data(block)
            .map_or(&[], |b| self.tables.numbers.part(b.first_param, b.params))
    }

    // The number of the block's first instruction.
    pub fn block_first(self, block: Block) -> usize
        ensures { (f : Func) → Shows self.entry f → result ≡ first_of f block.0 }
    {
        self.block_data(block).map_or(0, |b| b.first_inst)
    }

    // The number behind the block's last instruction.
    pub fn block_end(self, block: Block) -> usize
        ensures { (f : Func) → Shows self.entry f → result ≡ end_of f block.0 }
    {
        self.block_data(block)
            .map_or(0, |b| b.first_inst.saturating_add(b.insts))
    }

    pub fn inst_block(self, inst: Inst) -> Option<Block>
        ensures { (f : Func) → Shows self.entry f → result ≡ block_of f inst.0 }
    {
        self.inst_data(inst).map(|x| x.block)
    }

    // Whether the instruction is the last of its block.
    pub fn is_last(self, inst: Inst) -> bool
        ensures { (f : Func) → Shows self.entry f → result ≡ last_of f inst.0 }
    {
        self.inst_data(inst).is_some_and(|x| x.last)
    }

    pub fn opcode(self, inst: Inst) -> Option<Opcode>
        ensures { (f : Func) → Shows self.entry f → result ≡ option_map (λ x. x.opcode) (inst_of f inst.0) }
    {
        self.inst_data(inst).map(|x| x.opcode)
    }

    pub fn inst_args(self, inst: Inst) -> &'a [Value]
        ensures { (f : Func) → Shows self.entry f → result.now ≡ list_in (inst_of f inst.0) (λ x. x.operands) }
    {
        self.inst_data(inst)
            .map_or(&[], |x| self.tables.uses.part(x.first_use, x.operands))
    }

    // Operands and destination arguments.
    pub fn inst_uses(self, inst: Inst) -> &'a [Value]
        ensures { (f : Func) → Shows self.entry f → result.now ≡ list_in (inst_of f inst.0) uses_of }
    {
        self.inst_data(inst)
            .map_or(&[], |x| self.tables.uses.part(x.first_use, x.uses))
    }

    pub fn inst_results(self, inst: Inst) -> &'a [Value]
        ensures { (f : Func) → Shows self.entry f → result.now ≡ results_of f inst.0 }
    {
        self.inst_data(inst).map_or(&[], |x| self.tables.numbers.part(x.first_result, x.results))
    }

    pub fn immediate(self, inst: Inst) -> Option<u64>
        ensures { (f : Func) → Shows self.entry f → result ≡ option_in (inst_of f inst.0) (λ x. x.immediate) }
    {
        self.inst_data(inst)?.immediate
    }

    // The flag byte, if the file has one.
    pub fn flag(self, inst: Inst) -> Option<bool>
        ensures { (f : Func) → Shows self.entry f → result ≡ option_in (inst_of f inst.0) (λ x. x.flag) }
    {
        self.inst_data(inst)?.flag
    }

    // The source location, if the file has one.
    pub fn location(self, inst: Inst) -> Option<u32>
        ensures { (f : Func) → Shows self.entry f → result ≡ option_in (inst_of f inst.0) (λ x. x.location) }
    {
        self.inst_data(inst)?.location
    }

    pub fn num_destinations(self, inst: Inst) -> usize
        ensures { (f : Func) → Shows self.entry f → result ≡ number_in (inst_of f inst.0) (λ x. length x.destinations) }
    {
        self.inst_data(inst).map_or(0, |x| x.destinations)
    }

    // A destination of the instruction that ends a block.
    pub fn destination(self, block: Block, k: usize) -> Option<BlockCall<'a>>
        ensures { (f : Func) → Shows self.entry f → option_map call_of result ≡ destination_of_block f block.0 k }
    {
        let d = self.tables.destinations.read(edge_place(block, k)?, None)?;
        Some(BlockCall {
            block: d.target,
            args: self.tables.uses.part(d.first_arg, d.args),
        })
    }

    pub fn value_type(self, value: Value) -> Option<Type>
        ensures { (f : Func) → Shows self.entry f → result ≡ type_of_value f value.0 }
    {
        self.value_data(value).map(|row| row.ty)
    }

    pub fn value_def(self, value: Value) -> Option<ValueDef>
        ensures { (f : Func) → Shows self.entry f → result ≡ def_of_value f value.0 }
    {
        self.value_data(value).map(|row| row.def)
    }

    // An entry of the order.
    pub fn entry(self, k: usize) -> Option<Entry>
        ensures { (f : Func) → Shows self.entry f → result ≡ slice_get f.order k }
    {
        self.tables.order.read(k, None)
    }

    // The first entry that names a block.
    pub fn block_entry(self, block: Block) -> Option<usize>
        ensures { (f : Func) → Shows self.entry f → result ≡ entry_of_block f block.0 }
    {
        self.tables.block_entries.read(block.index(), None)
    }

    // The first entry that names an edge.
    pub fn edge_entry(self, block: Block, k: usize) -> Option<usize>
        ensures { (f : Func) → Shows self.entry f → result ≡ entry_of_edge f block.0 k }
    {
        self.tables.edge_entries.read(edge_place(block, k)?, None)
    }
}
