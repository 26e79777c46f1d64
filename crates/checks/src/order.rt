// The order, entry by entry.
// Options are taken apart by `match`: `is_none_or` and `is_some_and` were tried, and no proof of a clause said of each function
// closed.
ghost use Rattle.std.specs.Prelude.{◌≡◌, length, is_some};
ghost use Rattle.checks.specs.Checks.{is_entry, is_before, entry_test, entry_tests};
ghost use Rattle.checks.specs.Steps.{maybe_ordered, kept_entry_fits, InstsPass};
ghost use Rattle.checks.specs.Tests.{first_fault, fault_of};
ghost use Rattle.clif.specs.declared.entities.Entry.TheVariants.{Block as to_block, Edge as to_edge};
ghost use Rattle.function.specs.Answers.{Shows, call_of, destination_of_block};
ghost use Rattle.reader.specs.Data.{Func};
ghost use Rattle.std.specs.Option.{option_map};

use clif::entities::{Block, EntityRef, Entry};
use clif::refusals::Refusal;
use function::function::{BlockCall, Function};

pub(crate) fn is_before(found: Option<usize>, e: usize) -> bool
    ensures { result ≡ is_before found e }
{
    found.is_some_and(|i| i < e)
}

fn is_ordered(func: Function, call: Option<BlockCall>) -> bool
    ensures { (f : Func) → Shows func.entry f → result ≡ maybe_ordered f (option_map call_of call.entry) }
{
    match call {
        Some(d) => func.block_entry(d.block).is_some(),
        None => true,
    }
}

fn block_fits(func: Function, e: usize, b: Block) -> bool
    ensures { (f : Func) → Shows func.entry f → result ≡ kept_entry_fits f e (to_block b) }
{
    b.index() < func.num_blocks()
        && func.block_entry(b) == Some(e)
        && (e == 0) == (b.index() == 0)
        && is_ordered(func, func.destination(b, 0))
        && is_ordered(func, func.destination(b, 1))
}

// Whether there is such an edge.
fn leads(func: Function, b: Block, k: usize) -> bool
    ensures { (f : Func) → Shows func.entry f → result ≡ is_some (destination_of_block f b.0 k) }
{
    func.destination(b, k).is_some()
}

fn edge_fits(func: Function, e: usize, b: Block, k: u8) -> bool
    ensures { (f : Func) → Shows func.entry f → result ≡ kept_entry_fits f e (to_edge b k) }
{
    // `usize::from` was tried: the proof of the clause did not close.
    b.index() < func.num_blocks()
        && leads(func, b, k as usize)
        && func.edge_entry(b, k as usize) == Some(e)
        && is_before(func.block_entry(b), e)
}

fn entry_fits(func: Function, e: usize, x: Entry) -> bool
    ensures { (f : Func) → Shows func.entry f → result ≡ kept_entry_fits f e x }
{
    match x {
        Entry::Block(b) => block_fits(func, e, b),
        Entry::Edge(b, k) => edge_fits(func, e, b, k),
    }
}

fn entry_passes(func: Function, e: usize) -> bool
    ensures { (f : Func) → Shows func.entry f → InstsPass f → result ≡ (entry_test f e).passes }
{
    match func.entry(e) {
        Some(x) => entry_fits(func, e, x),
        None => true,
    }
}

pub(crate) fn check_order(func: Function) -> Result<(), Refusal>
    ensures { (f : Func) → Shows func.entry f → InstsPass f → fault_of result ≡ first_fault (entry_tests f 0 (length f.order)) }
{
    let n = func.num_entries();
    // By number: a refusal says which.
    for e in 0..n {
        if !entry_passes(func, e) {
            return Err(Refusal::BadOrder(e));
        }
    }
    Ok(())
}
