// The five integer types of a value.
ghost use Rattle.std.specs.Prelude.{◌≡◌, Some};
ghost use Rattle.clif.specs.Find.{decoded};
ghost use Rattle.clif.specs.Names.{type_name};
ghost use Rattle.clif.specs.Types.{type_number, type_of, type_bits};

use crate::numbers::UnknownNumber;
use std::fmt;
use std::fmt::{Display, Formatter, Write};

#[derive(Clone, Copy, PartialEq, Eq, Debug)]
pub enum Type {
    I8 = 1,
    I16 = 2,
    I32 = 3,
    I64 = 4,
    I128 = 5,
}

// The type that a byte of a file stands for.
impl TryFrom<u8> for Type {
    type Error = UnknownNumber;

    ghost try_from_gives = { λ n r. r ≡ decoded type_of n };

    fn try_from(n: u8) -> Result<Type, UnknownNumber> {
        match n {
            1 => Ok(Type::I8),
            2 => Ok(Type::I16),
            3 => Ok(Type::I32),
            4 => Ok(Type::I64),
            5 => Ok(Type::I128),
            _ => Err(UnknownNumber(n)),
        }
    }
}

impl From<Type> for u8 {
    ghost from_gives = { λ t n. n ≡ type_number t };

    fn from(ty: Type) -> u8 {
        ty as u8
    }
}

impl Type {
    pub fn bits(self) -> u8
        ensures { result ≡ type_bits self }
    {
        match self {
            Type::I8 => 8,
            Type::I16 => 16,
            Type::I32 => 32,
            Type::I64 => 64,
            Type::I128 => 128,
        }
    }
}

impl Display for Type {
    ghost output = { λ t. Some (type_name t) };

    fn fmt<W: Write>(&self, f: &mut Formatter<W>) -> fmt::Result {
        f.write_str(match self {
            Type::I8 => "i8",
            Type::I16 => "i16",
            Type::I32 => "i32",
            Type::I64 => "i64",
            Type::I128 => "i128",
        })
    }
}
