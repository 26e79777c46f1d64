// Each use comes after its definition, in the order's order.
// Options are taken apart by `match`: `is_none_or` and `is_some_and` were tried, and no proof of a clause said of each function
// closed.
ghost use Rattle.std.specs.Prelude.{◌≡◌, length};
ghost use Rattle.checks.specs.Checks.{ordered_before, inst_before, def_before, value_before, uses_tests};
ghost use Rattle.checks.specs.Steps.{fault_at};
ghost use Rattle.checks.specs.Tests.{first_fault, fault_of};
ghost use Rattle.function.specs.Answers.{Shows, all_insts, block_of, entry_of_block};
ghost use Rattle.reader.specs.Data.{Func};

use crate::order::is_before;
use clif::entities::{Block, EntityRef, Inst, Value};
use clif::refusals::Refusal;
use function::function::Function;
use function::rows::ValueDef;

// Whether block `c` stands before block `b` in the order.
fn ordered_before(func: Function, c: Block, b: Block) -> bool
    ensures { (f : Func) → Shows func.entry f → result ≡ ordered_before (entry_of_block f c.0) (entry_of_block f b.0) }
{
    match func.block_entry(b) {
        Some(e) => is_before(func.block_entry(c), e),
        None => false,
    }
}

// These three ask of an instruction of block `b`, and their clauses name both: a struct of the two would be taken apart in each.
fn inst_before(func: Function, b: Block, i: usize, j: Inst) -> bool
    ensures { (f : Func) → Shows func.entry f → result ≡ inst_before f b.0 i j.0 (block_of f j.0) }
{
    match func.inst_block(j) {
        Some(c) => {
            if c == b {
                j.index() < i
            } else {
                ordered_before(func, c, b)
            }
        }
        None => false,
    }
}

fn def_before(func: Function, b: Block, i: usize, def: ValueDef) -> bool
    ensures { (f : Func) → Shows func.entry f → result ≡ def_before f b.0 i def }
{
    match def {
        ValueDef::Param(c, _) => c == b || ordered_before(func, c, b),
        ValueDef::Result(j, _) => inst_before(func, b, i, j),
    }
}

fn value_before(func: Function, b: Block, i: usize, v: Value) -> bool
    ensures { (f : Func) → Shows func.entry f → result ≡ value_before f b.0 i v }
{
    match func.value_def(v) {
        Some(def) => def_before(func, b, i, def),
        None => false,
    }
}

// The first instruction, in file order, with a use that is not defined before it. Three loops and no chain of iterators: a block
// that the order leaves out is passed over whole, and the label leaves the search from inside with the instruction, as an `Option`.
// By number, since a refusal says which; and by `as`, since `EntityRef` has no `new`.
fn early_use(func: Function) -> Option<usize>
    ensures { (f : Func) → Shows func.entry f → fault_at result ≡ first_fault (uses_tests f 0 (length (all_insts f))) }
{
    let blocks = func.num_blocks();
    let insts = func.num_insts();
    'search: {
        for b in 0..blocks {
            let block = Block(b as u16);
            if func.block_entry(block).is_none() {
                continue;
            }
            let end = func.block_end(block).min(insts);
            for i in func.block_first(block)..end {
                for v in func.inst_uses(Inst(i as u16)) {
                    if !value_before(func, block, i, *v) {
                        break 'search Some(i);
                    }
                }
            }
        }
        None
    }
}

pub(crate) fn check_uses(func: Function) -> Result<(), Refusal>
    ensures { (f : Func) → Shows func.entry f → fault_of result ≡ first_fault (uses_tests f 0 (length (all_insts f))) }
{
    match early_use(func) {
        Some(i) => Err(Refusal::UseBeforeDefinition(i)),
        None => Ok(()),
    }
}
