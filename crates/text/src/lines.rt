// The lines of a function's text.
ghost use Rattle.std.specs.Prelude.{◌≡◌, ◌^◌, ◌<◌, IfOk, string_bytes};
ghost use Rattle.function.specs.Answers.{Shows};
ghost use Rattle.function.specs.Holding.{Holds};
ghost use Rattle.reader.specs.Data.{Func};
ghost use Rattle.reader.specs.Within.{Within};
ghost use Rattle.text.specs.Text.{head_line, Begins};

use crate::names::{Destination, Typed, put_list};
use clif::entities::{Block, Inst, Value};
use function::function::Function;
use function::tables::Tables;
use std::alloc::{AllocError, Global};
use std::fmt;
use std::fmt::{Display, Formatter, Write};

// Values where they are defined.
#[derive(Clone, Copy)]
pub struct Definitions<'a> {
    pub function: Function<'a>,
    pub values: &'a [Value],
}

// The head of a block: its name and its parameters.
#[derive(Clone, Copy)]
pub struct BlockHead<'a> {
    pub function: Function<'a>,
    pub block: Block,
}

// An instruction, without its number.
#[derive(Clone, Copy)]
pub struct Instruction<'a> {
    pub function: Function<'a>,
    pub block: Block,
    pub inst: Inst,
}

impl Display for Definitions<'_> {
    fn fmt<W: Write>(&self, f: &mut Formatter<W>) -> fmt::Result {
        let typed = |value: &Value| {
            let ty = self.function.value_type(*value)?;
            Some(Typed { value: *value, ty })
        };
        put_list(f, self.values.iter().filter_map(typed))
    }
}

impl Display for BlockHead<'_> {
    fn fmt<W: Write>(&self, f: &mut Formatter<W>) -> fmt::Result {
        let function = self.function;
        let block = self.block;
        let values = function.block_params(self.block);
        if values.is_empty() {
            write!(f, "{block}:")
        } else {
            write!(f, "{block}({}):", Definitions { function, values })
        }
    }
}

// Parts that may be missing each have their own `match`: they differ in what is asked, and in what is written.
impl Instruction<'_> {
    fn put_results<W: Write>(self, f: &mut Formatter<W>) -> fmt::Result {
        let function = self.function;
        let values = function.inst_results(self.inst);
        if values.is_empty() {
            Ok(())
        } else {
            write!(f, "{} = ", Definitions { function, values })
        }
    }

    fn put_opcode<W: Write>(self, f: &mut Formatter<W>) -> fmt::Result {
        match self.function.opcode(self.inst) {
            Some(opcode) => write!(f, "{opcode}"),
            None => Ok(()),
        }
    }

    fn put_flag<W: Write>(self, f: &mut Formatter<W>) -> fmt::Result {
        match self.function.flag(self.inst) {
            Some(true) => f.write_str(" notrap"),
            Some(false) => f.write_str(" maytrap"),
            None => Ok(()),
        }
    }

    fn put_immediate<W: Write>(self, f: &mut Formatter<W>) -> fmt::Result {
        match self.function.immediate(self.inst) {
            Some(n) => write!(f, " {n}"),
            None => Ok(()),
        }
    }

    // Operands, then destinations, all in one list. Not `put_list`: its items are of one type.
    fn put_items<W: Write>(self, f: &mut Formatter<W>) -> fmt::Result {
        let mut separator = " ";
        for value in self.function.inst_args(self.inst) {
            write!(f, "{separator}{value}")?;
            separator = ", ";
        }
        // By number: a function answers for one destination at a time.
        for k in 0..self.function.num_destinations(self.inst) {
            if let Some(call) = self.function.destination(self.block, k) {
                write!(f, "{separator}{}", Destination(call))?;
            }
            separator = ", ";
        }
        Ok(())
    }

    fn put_location<W: Write>(self, f: &mut Formatter<W>) -> fmt::Result {
        match self.function.location(self.inst) {
            Some(n) => write!(f, " @{n:08x}"),
            None => Ok(()),
        }
    }
}

impl Display for Instruction<'_> {
    fn fmt<W: Write>(&self, f: &mut Formatter<W>) -> fmt::Result {
        self.put_results(f)?;
        self.put_opcode(f)?;
        self.put_flag(f)?;
        self.put_immediate(f)?;
        self.put_items(f)?;
        self.put_location(f)
    }
}

// A number as an entity holds it. No function has so many entities that it does not fit.
fn entity_number(n: usize) -> u16
    ensures { n < 2 ^ 16 → result ≡ n }
{
    u16::try_from(n).unwrap_or(u16::MAX)
}

// The number stands in column 32, or behind a text that is longer.
fn inst_line(heap: Global, inst: Instruction<'_>) -> Result<String, AllocError> {
    let text = format!(in heap; "    {inst}")?;
    let number = inst.inst.0;
    format!(in heap; "{text:<31} ; {number}\n")
}

fn block_text(heap: Global, function: Function<'_>, block: Block) -> Result<String, AllocError> {
    let mut text = format!(in heap; "{}\n", BlockHead { function, block })?;
    // By number, as the lines show them.
    for i in function.block_first(block)..function.block_end(block) {
        let inst = Inst(entity_number(i));
        let inst = Instruction {
            function,
            block,
            inst,
        };
        text.push_str(inst_line(heap, inst)?.as_str())?;
    }
    Ok(text)
}

fn blocks_text(heap: Global, function: Function<'_>) -> Result<String, AllocError> {
    let mut text = String::new(heap);
    // By number, as a function answers for its blocks.
    for b in 0..function.num_blocks() {
        let block = Block(entity_number(b));
        text.push_str(block_text(heap, function, block)?.as_str())?;
    }
    Ok(text)
}

fn order_line(heap: Global, function: Function<'_>) -> Result<String, AllocError> {
    let mut line = String::from_str(heap, "order")?;
    // By number, as a function answers for its entries.
    for k in 0..function.num_entries() {
        if let Some(entry) = function.entry(k) {
            line.push_str(format!(in heap; " {entry}")?.as_str())?;
        }
    }
    line.push_str("\n")?;
    Ok(line)
}

// The line of the totals.
fn head_line(heap: Global, function: Function<'_>) -> Result<String, AllocError>
    ensures { IfOk result (λ s. (f : Func) → Shows function.entry f → string_bytes s ≡ head_line f) }
{
    let blocks = function.num_blocks();
    let insts = function.num_insts();
    let values = function.num_values();
    format!(in heap; "function {blocks} {insts} {values}\n")
}

// The text of the function that the tables hold.
pub(crate) fn function_text(heap: Global, tables: &Tables) -> Result<String, AllocError>
    ensures { IfOk result (λ s. (f : Func) → Within f → Holds tables.now f → Begins (head_line f) (string_bytes s)) }
{
    let function = tables.function();
    let mut text = head_line(heap, function)?;
    text.push_str(blocks_text(heap, function)?.as_str())?;
    text.push_str(order_line(heap, function)?.as_str())?;
    Ok(text)
}
