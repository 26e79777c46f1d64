// Predicates of instructions. One that does not exist is no effect, no branch and no constant. Clauses are said of each function
// that the tables show; why stands at `Shows`.
ghost use Rattle.std.specs.Prelude.{◌≡◌};
ghost use Rattle.clif.specs.Rows.{row_of};
ghost use Rattle.function.specs.Answers.{Shows, inst_of};
ghost use Rattle.function.specs.Predicates.{effect, needed_anyway, branches, terminates, constant, cannot_trap};
ghost use Rattle.reader.specs.Data.{Func};
ghost use Rattle.std.specs.Option.{option_map};

use crate::function::Function;
use clif::entities::Inst;
use clif::opcodes::Class;

fn class_of(func: Function, inst: Inst) -> Option<Class>
    ensures { (f : Func) → Shows func.entry f → result ≡ option_map (λ x. (row_of x.opcode).class) (inst_of f inst.0) }
{
    func.opcode(inst).map(|opcode| opcode.row().class)
}

// Whether the instruction is an effect: one that lowering may not move past another.
pub fn has_lowering_side_effect(func: Function, inst: Inst) -> bool
    ensures { (f : Func) → Shows func.entry f → result ≡ effect f inst.0 }
{
    class_of(func, inst).is_some_and(|class| class.any())
}

// Whether the flag says that a load cannot trap.
fn is_notrap(func: Function, inst: Inst) -> bool
    ensures { (f : Func) → Shows func.entry f → result ≡ cannot_trap f inst.0 }
{
    func.flag(inst).unwrap_or(false)
}

// Whether lowering must emit the instruction even if nothing uses its results: an effect, but no load that cannot trap.
pub fn must_lower_even_if_unused(func: Function, inst: Inst) -> bool
    ensures { (f : Func) → Shows func.entry f → result ≡ needed_anyway f inst.0 }
{
    // Asked before the closure: inside it, the search for a proof gives up.
    let notrap = is_notrap(func, inst);
    class_of(func, inst).is_some_and(|class| class.any() && !(class.load && notrap))
}

pub fn is_branch(func: Function, inst: Inst) -> bool
    ensures { (f : Func) → Shows func.entry f → result ≡ branches f inst.0 }
{
    class_of(func, inst).is_some_and(|class| class.branch)
}

pub fn is_terminator(func: Function, inst: Inst) -> bool
    ensures { (f : Func) → Shows func.entry f → result ≡ terminates f inst.0 }
{
    class_of(func, inst).is_some_and(|class| class.terminator)
}

// The bits of a constant.
pub fn is_constant_64bit(func: Function, inst: Inst) -> Option<u64>
    ensures { (f : Func) → Shows func.entry f → result ≡ constant f inst.0 }
{
    if func.opcode(inst)?.row().immediate {
        func.immediate(inst)
    } else {
        None
    }
}
