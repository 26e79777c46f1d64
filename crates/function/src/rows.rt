// The rows of the tables. Where a list stands is said by its first place and its length: a struct of the two would be
// taken apart wherever it is read.
use clif::entities::{Block, Inst};
use clif::opcodes::Opcode;
use clif::types::Type;

// A block: where its parameters stand among the values, and its instructions.
#[derive(Clone, Copy)]
pub struct BlockData {
    pub first_param: usize,
    pub params: usize,
    pub first_inst: usize,
    pub insts: usize,
}

// An instruction: its block, whether it is the last there, where its uses and its results stand,
// and the fields that hold no list. Uses are operands, then destination arguments.
#[derive(Clone, Copy)]
pub struct InstData {
    pub block: Block,
    pub last: bool,
    pub opcode: Opcode,
    pub first_use: usize,
    pub operands: usize,
    pub uses: usize,
    pub first_result: usize,
    pub results: usize,
    pub destinations: usize,
    pub immediate: Option<u64>,
    pub flag: Option<bool>,
    pub location: Option<u32>,
}

// A destination: its block, and where its arguments stand among the uses.
#[derive(Clone, Copy)]
pub struct DestData {
    pub target: Block,
    pub first_arg: usize,
    pub args: usize,
}

// What defines a value: a parameter of a block or a result of an instruction, by index.
#[derive(Clone, Copy, PartialEq, Eq, Debug)]
pub enum ValueDef {
    Param(Block, usize),
    Result(Inst, usize),
}

#[derive(Clone, Copy)]
pub struct ValueData {
    pub ty: Type,
    pub def: ValueDef,
}
