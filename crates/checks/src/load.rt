// The call that takes a file: it is read, checked and held, or refused.
ghost use Rattle.std.specs.Prelude.{◌≡◌};
ghost use Rattle.checks.specs.Checks.{all_tests};
ghost use Rattle.checks.specs.Tests.{first_fault, fault_of};
ghost use Rattle.checks.specs.Verdict.{Loaded};
ghost use Rattle.function.specs.Answers.{Shows};
ghost use Rattle.function.specs.Holding.{Holds};
ghost use Rattle.reader.specs.Data.{Func};
ghost use Rattle.reader.specs.Within.{Within};

use crate::insts::check_insts;
use crate::order::check_order;
use crate::uses::check_uses;
use clif::refusals::Refusal;
use function::function::Function;
use function::tables::Tables;

fn check(func: Function) -> Result<(), Refusal>
    ensures { (f : Func) → Shows func.entry f → fault_of result ≡ first_fault (all_tests f) }
{
    check_insts(func)?;
    check_order(func)?;
    check_uses(func)
}

fn check_tables(tables: &Tables) -> Result<(), Refusal>
    ensures { (f : Func) → Within f → Holds tables.now f → fault_of result ≡ first_fault (all_tests f) }
{
    check(tables.function())
}

// Reads and checks a file. The tables then hold its function, or after a refusal nothing.
pub fn load(tables: &mut Tables, file: &[u8]) -> Result<(), Refusal>
    ensures { Loaded file.now result tables.new }
{
    tables.fill(file)?;
    let answer = check_tables(tables);
    if answer.is_err() {
        tables.clear();
    }
    answer
}
