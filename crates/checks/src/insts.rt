// Instruction by instruction: the row, then the numbers.
ghost use Rattle.std.specs.Prelude.{◌≡◌, length};
ghost use Rattle.checks.specs.Checks.{inst_tests};
ghost use Rattle.checks.specs.Tests.{first_fault, fault_of};
ghost use Rattle.function.specs.Answers.{Shows, all_insts};
ghost use Rattle.reader.specs.Data.{Func};

use crate::numbers::numbers_fit;
use crate::rows::row_fits;
use clif::entities::Inst;
use clif::refusals::Refusal;
use function::function::Function;

pub(crate) fn check_insts(func: Function) -> Result<(), Refusal>
    ensures { (f : Func) → Shows func.entry f → fault_of result ≡ first_fault (inst_tests f 0 (length (all_insts f))) }
{
    let n = func.num_insts();
    // By number: a refusal says which; and by `as`, since `EntityRef` has no `new`. The order has a loop like this; one for both
    // would take the test and the refusal as closures, and is no shorter.
    for i in 0..n {
        let inst = Inst(i as u16);
        if !row_fits(func, inst) {
            return Err(Refusal::UnlikeRow(i));
        }
        if !numbers_fit(func, inst) {
            return Err(Refusal::NoSuchNumber(i));
        }
    }
    Ok(())
}
