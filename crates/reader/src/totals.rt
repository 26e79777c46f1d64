// How many of each kind of thing the counts of a file promised so far.
ghost use Rattle.std.specs.Prelude.{◌≡◌, ◌-◌, cond, nat_le, Some, None};
ghost use Rattle.reader.specs.Data.{limit};
ghost use Rattle.reader.specs.Reading.{total, raised};

#[derive(Clone, Copy)]
pub enum Kind {
    Blocks,
    Insts,
    Values,
    Operands,
    Entries,
}

#[derive(Clone, Copy, Default)]
pub struct Totals {
    pub blocks: usize,
    pub insts: usize,
    pub values: usize,
    pub operands: usize,
    pub entries: usize,
}

impl Kind {
    // At most how many of a kind a file may have.
    fn limit(self) -> usize
        ensures { result ≡ limit self }
    {
        match self {
            Kind::Blocks => 64,
            Kind::Insts => 1024,
            Kind::Values => 2048,
            Kind::Operands => 4096,
            Kind::Entries => 128,
        }
    }
}

impl Totals {
    // By a `match`, as what it reads stands in fields: an array by kind would name none of them.
    fn of(self, kind: Kind) -> usize
        ensures { result ≡ total kind self }
    {
        match kind {
            Kind::Blocks => self.blocks,
            Kind::Insts => self.insts,
            Kind::Values => self.values,
            Kind::Operands => self.operands,
            Kind::Entries => self.entries,
        }
    }

    // The totals with `n` more of a kind, if its limit leaves room for them.
    pub(crate) fn plus(self, kind: Kind, n: usize) -> Option<Totals>
        ensures { result ≡ cond (nat_le n (limit kind - total kind self)) (Some (raised kind n self)) None }
    {
        if n > kind.limit().saturating_sub(self.of(kind)) {
            return None;
        }
        let mut sum = self;
        // A `&mut` to the total, chosen by a `match`, would say this once, but what is written through it is lost to the proof.
        match kind {
            Kind::Blocks => sum.blocks += n,
            Kind::Insts => sum.insts += n,
            Kind::Values => sum.values += n,
            Kind::Operands => sum.operands += n,
            Kind::Entries => sum.entries += n,
        }
        Some(sum)
    }
}
