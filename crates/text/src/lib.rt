// The text that `show` prints for a file. docs/format.md defines it.
#![tactic(auto)]

ghost use Rattle.std.specs.Prelude.{◌≡◌, IfOk, string_bytes};
ghost use Rattle.clif.specs.Refusals.{refusal_number, refusal_place};
ghost use Rattle.text.specs.Text.{refusal_line, Shown};

use checks::load::load;
use clif::refusals::Refusal;
use function::tables::Tables;
use std::alloc::{AllocError, Global};

mod lines;
mod names;

fn refusal_line(heap: Global, refusal: Refusal) -> Result<String, AllocError>
    ensures { IfOk result (λ s. string_bytes s ≡ refusal_line (refusal_number refusal) (refusal_place refusal)) }
{
    format!(in heap; "{refusal}\n")
}

// The whole text for a file: its function, or the refusal.
pub fn shown(heap: Global, file: &[u8]) -> Result<String, AllocError>
    ensures { IfOk result (λ s. Shown file.now (string_bytes s)) }
{
    let mut tables = Tables::new();
    match load(&mut tables, file) {
        Ok(()) => lines::function_text(heap, &tables),
        Err(refusal) => refusal_line(heap, refusal),
    }
}
