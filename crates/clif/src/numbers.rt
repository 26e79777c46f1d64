// A number of a file that stands for nothing.
ghost use Rattle.std.specs.Prelude.{Some};
ghost use Rattle.clif.specs.Names.{unknown_number};

use std::error::Error;
use std::fmt;
use std::fmt::{Display, Formatter, Write};

#[derive(Clone, Copy, PartialEq, Eq, Debug)]
pub struct UnknownNumber(pub u8);

impl Display for UnknownNumber {
    ghost output = { λ n. Some (unknown_number n) };

    fn fmt<W: Write>(&self, f: &mut Formatter<W>) -> fmt::Result {
        write!(f, "{} stands for nothing", self.0)
    }
}

impl Error for UnknownNumber {}
