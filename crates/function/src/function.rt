// A function whose tables are filled, with its answers. Each takes constant time.
use crate::tables::Tables;
use clif::entities::{Block, Value};

#[derive(Clone, Copy)]
pub struct Function<'a> {
    pub(crate) tables: &'a Tables,
}

// Where a branch may go: a block, and the arguments for its parameters.
#[derive(Clone, Copy)]
pub struct BlockCall<'a> {
    pub block: Block,
    pub args: &'a [Value],
}
