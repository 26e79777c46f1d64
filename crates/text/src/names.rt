// Values where they are defined and where they are used.
ghost use Rattle.std.specs.Iterator.{IsFinite};
ghost use Rattle.std.specs.Prelude.{Some};
ghost use Rattle.text.specs.Names.{definition};

use clif::entities::Value;
use clif::types::Type;
use function::function::BlockCall;
use std::fmt;
use std::fmt::{Display, Formatter, Write};

// A value where it is defined.
#[derive(Clone, Copy)]
pub struct Typed {
    pub value: Value,
    pub ty: Type,
}

// Values with commas between them.
#[derive(Clone, Copy)]
pub struct Values<'a>(pub &'a [Value]);

#[derive(Clone, Copy)]
pub struct Destination<'a>(pub BlockCall<'a>);

impl Display for Typed {
    ghost output = { λ x. Some (definition x.value x.ty) };

    fn fmt<W: Write>(&self, f: &mut Formatter<W>) -> fmt::Result {
        write!(f, "{}: {}", self.value, self.ty)
    }
}

// Writes items with commas between them.
pub(crate) fn put_list<W: Write, T: Display + Drop, I: Iterator<Item = T> + Drop>(
    f: &mut Formatter<W>,
    items: I,
) -> fmt::Result
    requires can { I.can_next items }
    requires ends { IsFinite (I.remaining items) }
{
    let mut separator = "";
    for item in items {
        write!(f, "{separator}{item}")?;
        separator = ", ";
    }
    Ok(())
}

impl Display for Values<'_> {
    fn fmt<W: Write>(&self, f: &mut Formatter<W>) -> fmt::Result {
        put_list(f, self.0.iter())
    }
}

impl Display for Destination<'_> {
    fn fmt<W: Write>(&self, f: &mut Formatter<W>) -> fmt::Result {
        let block = self.0.block;
        let args = self.0.args;
        if args.is_empty() {
            write!(f, "{block}")
        } else {
            write!(f, "{block}({})", Values(args))
        }
    }
}
