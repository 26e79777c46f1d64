// How often each value of a function is used. Clauses are said of each function that the tables show; why stands at `Shows` in
// crate `function`.
ghost use Rattle.std.specs.Prelude.{◌≡◌, OnErr};
ghost use Rattle.analysis.specs.Marks.{work_of, marked, marked_all, counts, uses_behind, Kept, SamePlaces, Worked};
ghost use Rattle.analysis.specs.Uses.{counted_on, first_result_of, uses, SameSize, StateLaw, Computed};
ghost use Rattle.function.specs.Answers.{Shows, inst_of, list_in};
ghost use Rattle.function.specs.Numbering.{uses_of};
ghost use Rattle.reader.specs.Data.{Func};
ghost use Rattle.std.specs.Option.{option_map};

use crate::states::UseStates;
use clif::entities::{Inst, Value};
use clif::refusals::Refusal;
use function::function::Function;
use function::rows::ValueDef;
use storage::lists::PushList;

// The counting of uses: the states so far, and the values whose instruction is still to be gone through. No `impl Model`:
// where a value with one is let go, what stands behind its references is lost to the proof.
#[derive(Drop)]
struct Counting<'a, 'b, 's, 'm> {
    states: &'a mut UseStates<'s>,
    multiple_stack: &'b mut PushList<'m, Value>,
}

fn first_result(func: Function, inst: Inst) -> Option<Value>
    ensures { (f : Func) → Shows func.entry f → option_map (λ v. v.0) result ≡ first_result_of f inst.0 }
{
    func.inst_results(inst).first().copied()
}

// The value on which a use counts: of all results of an instruction the first.
#[tactic(auto, unfolding(crate::specs::Uses::counted_on))]
fn map_to_first_result(func: Function, val: Value) -> Option<Value>
    ensures { (f : Func) → Shows func.entry f → option_map (λ v. v.0) result ≡ counted_on f val.0 }
{
    match func.value_def(val)? {
        ValueDef::Param(_, _) => Some(val),
        ValueDef::Result(inst, _) => first_result(func, inst),
    }
}

impl Counting<'_, '_, '_, '_> {
    // Counts one use. A value that becomes Multiple goes on the stack.
    fn mark_use(&mut self, func: Function, val: Value)
        ensures marks { (f : Func) → Shows func.entry f → work_of self.new ≡ marked (work_of self.old) (counted_on f val.0) }
        ensures kept { Kept (work_of self.old) (work_of self.new) }
        ensures places { SamePlaces self.old self.new }
    {
        if let Some(first) = map_to_first_result(func, val) {
            if self.states.mark(first) {
                let _ = self.multiple_stack.push(first);
            }
        }
    }

    // Counts the uses of one instruction.
    fn mark_inst(&mut self, func: Function, inst: Inst)
        ensures marks { (f : Func) → Shows func.entry f → work_of self.new ≡ marked_all (work_of self.old) (counts f (list_in (inst_of f inst.0) uses_of)) }
        ensures kept { Kept (work_of self.old) (work_of self.new) }
        ensures places { SamePlaces self.old self.new }
    {
        for val in func.inst_uses(inst) {
            self.mark_use(func, *val);
        }
    }

    // Counts every use of every block.
    fn mark_all(&mut self, func: Function)
        ensures marks { (f : Func) → Shows func.entry f → work_of self.new ≡ marked_all (work_of self.old) (counts f (uses f)) }
        ensures kept { Kept (work_of self.old) (work_of self.new) }
        ensures places { SamePlaces self.old self.new }
    {
        let insts = func.num_insts();
        // By number, as a function answers for its instructions; and by `as`, since `EntityRef` has no `new`.
        for i in 0..insts {
            self.mark_inst(func, Inst(i as u16));
        }
    }

    // Counts what the instruction uses that defines a value.
    fn mark_def(&mut self, func: Function, value: Value)
        ensures marks { (f : Func) → Shows func.entry f → work_of self.new ≡ marked_all (work_of self.old) (counts f (uses_behind f value.0)) }
        ensures kept { Kept (work_of self.old) (work_of self.new) }
        ensures places { SamePlaces self.old self.new }
    {
        if let Some(ValueDef::Result(inst, _)) = func.value_def(value) {
            self.mark_inst(func, inst);
        }
    }

    // Counts the uses of an instruction once more for each value that became Multiple.
    fn propagate(&mut self, func: Function)
        ensures works { (f : Func) → Shows func.entry f → Worked f (work_of self.old) (work_of self.new) }
        ensures kept { Kept (work_of self.old) (work_of self.new) }
        ensures places { SamePlaces self.old self.new }
    {
        while let Some(value) = self.multiple_stack.pop() {
            self.mark_def(func, value);
        }
    }
}

// The use states of a function's values. Time is linear in the number of uses: each is counted once, and once more
// where its instruction's first result becomes Multiple. The stack has the values whose instruction is to be gone through.
pub fn compute_use_states(
    func: Function,
    states: &mut UseStates,
    multiple_stack: &mut PushList<Value>,
) -> Result<(), Refusal>
    ensures states { (f : Func) → Shows func.entry f → Computed f states.old multiple_stack.old result states.new multiple_stack.new }
    ensures size { SameSize states.old multiple_stack.old states.new multiple_stack.new }
    ensures refused { OnErr result ((states.new ≡ states.old) × (multiple_stack.new ≡ multiple_stack.old)) }
    ensures law { (f : Func) → StateLaw f }
{
    let values = func.num_values();
    let room = states.len().min(multiple_stack.capacity());
    if room < values {
        return Err(Refusal::NoRoom(0));
    }
    states.clear(values);
    multiple_stack.clear();
    let mut counting = Counting {
        states,
        multiple_stack,
    };
    counting.mark_all(func);
    counting.propagate(func);
    Ok(())
}
