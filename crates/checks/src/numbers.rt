// Each value and block that an instruction names exists, and arguments are like parameters.
// Options are taken apart by `match`: `is_none_or` and `is_some_and` were tried, and no proof of a clause said of each function
// closed.
ghost use Rattle.std.specs.Prelude.{◌≡◌, ◌<◌, true, length};
ghost use Rattle.checks.specs.Checks.{same_type, same_types, value_exists, destination_fits, numbers_fit, with_inst, row_test};
ghost use Rattle.checks.specs.Steps.{maybe_fits, ends_fit};
ghost use Rattle.std.specs.List.{list_all};
ghost use Rattle.function.specs.Answers.{Shows, call_of, last_of, block_of, all_insts};
ghost use Rattle.reader.specs.Data.{Func};
ghost use Rattle.std.specs.Option.{option_map};

use clif::entities::{EntityRef, Inst, Value};
use clif::types::Type;
use function::function::{BlockCall, Function};

fn values_exist(func: Function, values: &[Value]) -> bool
    ensures { (f : Func) → Shows func.entry f → result ≡ list_all (value_exists f) values.now }
{
    let n = func.num_values();
    values.iter().all(|v| v.index() < n)
}

fn same_type(a: Option<Type>, b: Option<Type>) -> bool
    ensures { result ≡ same_type a b }
{
    a.is_some() && a == b
}

fn same_types(func: Function, a: &[Value], b: &[Value]) -> bool
    ensures { (f : Func) → Shows func.entry f → result ≡ same_types f a.now b.now }
{
    a.len() == b.len()
        && a.iter().zip(b).all(|(v, w)| same_type(func.value_type(*v), func.value_type(*w)))
}

fn destination_fits(func: Function, d: BlockCall) -> bool
    ensures { (f : Func) → Shows func.entry f → result ≡ destination_fits f (call_of d.entry) }
{
    d.block.index() < func.num_blocks() && same_types(func, d.args, func.block_params(d.block))
}

fn call_fits(func: Function, call: Option<BlockCall>) -> bool
    ensures { (f : Func) → Shows func.entry f → result ≡ maybe_fits f (option_map call_of call.entry) }
{
    match call {
        Some(d) => destination_fits(func, d),
        None => true,
    }
}

// The destinations of a block's last instruction.
fn destinations_fit(func: Function, inst: Inst) -> bool
    ensures { (f : Func) → Shows func.entry f → result ≡ ends_fit f (last_of f inst.0) (block_of f inst.0) }
{
    match func.inst_block(inst) {
        Some(block) if func.is_last(inst) => {
            call_fits(func, func.destination(block, 0))
                && call_fits(func, func.destination(block, 1))
        }
        _ => true,
    }
}

pub(crate) fn numbers_fit(func: Function, inst: Inst) -> bool
    ensures { (f : Func) → Shows func.entry f → inst.0 < length (all_insts f) → (row_test f inst.0).passes ≡ true → result ≡ with_inst f inst.0 (numbers_fit f) }
{
    values_exist(func, func.inst_uses(inst)) && destinations_fit(func, inst)
}
