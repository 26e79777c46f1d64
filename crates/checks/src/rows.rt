// Each instruction looks as its opcode's row says.
// Options are taken apart by `match`: `is_none_or` and `is_some_and` were tried, and no proof of a clause said of each function
// closed.
ghost use Rattle.std.specs.Prelude.{◌≡◌};
ghost use Rattle.checks.specs.Checks.{width_fits, first_type, constant_fits, shape_fits, row_fits, same_flag, with_inst};
ghost use Rattle.function.specs.Answers.{Shows, last_of, results_of, inst_of, option_in};
ghost use Rattle.reader.specs.Data.{Func};

use clif::entities::Inst;
use clif::opcodes::Row;
use clif::types::Type;
use function::function::Function;

// What a row looks at.
#[derive(Clone, Copy)]
struct Shape {
    operands: usize,
    results: usize,
    destinations: usize,
    immediate: bool,
    flag: bool,
    last: bool,
}

// Whether a constant has no bit above its width.
fn width_fits(n: u64, ty: Option<Type>) -> bool
    ensures { result ≡ width_fits n ty }
{
    match ty {
        Some(Type::I8) => u8::try_from(n).is_ok(),
        Some(Type::I16) => u16::try_from(n).is_ok(),
        Some(Type::I32) => u32::try_from(n).is_ok(),
        Some(Type::I64) => true,
        Some(Type::I128) | None => false,
    }
}

fn first_type(func: Function, inst: Inst) -> Option<Type>
    ensures { (f : Func) → Shows func.entry f → result ≡ first_type f (results_of f inst.0) }
{
    let first = func.inst_results(inst).first()?;
    func.value_type(*first)
}

fn constant_fits(func: Function, inst: Inst) -> bool
    ensures { (f : Func) → Shows func.entry f → result ≡ constant_fits f (option_in (inst_of f inst.0) (λ x. x.immediate)) (results_of f inst.0) }
{
    match func.immediate(inst) {
        Some(n) => width_fits(n, first_type(func, inst)),
        None => true,
    }
}

fn shape_fits(row: Row, x: Shape) -> bool
    ensures { result ≡ shape_fits row x }
{
    row.operands.holds(x.operands)
        && row.results.holds(x.results)
        && row.destinations.holds(x.destinations)
        && row.immediate == x.immediate
        && (row.flag || !x.flag)
        && row.class.terminator == x.last
}

pub(crate) fn row_fits(func: Function, inst: Inst) -> bool
    ensures { (f : Func) → Shows func.entry f → result ≡ with_inst f inst.0 (λ x. row_fits f x (last_of f inst.0) (results_of f inst.0)) }
{
    let Some(opcode) = func.opcode(inst) else {
        return true;
    };
    let shape = Shape {
        operands: func.inst_args(inst).len(),
        results: func.inst_results(inst).len(),
        destinations: func.num_destinations(inst),
        immediate: func.immediate(inst).is_some(),
        flag: func.flag(inst).is_some(),
        last: func.is_last(inst),
    };
    shape_fits(opcode.row(), shape) && constant_fits(func, inst)
}
