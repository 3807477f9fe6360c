// Why a program gives no answer.

ghost use Rattle.std.specs.Prelude.{◌≡◌, Some};
ghost use Rattle.streams.specs.Trouble.{message};
ghost use Rattle.streams.specs.declared.trouble.Trouble.TheVariants.{Unreadable};

use std::error::Error;
use std::fmt;

#[derive(Clone, Copy, Debug, PartialEq, Eq)]
pub enum Trouble {
    Unreadable,
    Unwritable,
}

impl fmt::Display for Trouble {
    ghost output = { λ trouble. Some (message trouble) };

    fn fmt<W: fmt::Write>(&self, f: &mut fmt::Formatter<W>) -> fmt::Result {
        match self {
            Trouble::Unreadable => f.write_str("the input can't be read"),
            Trouble::Unwritable => f.write_str("the answer can't be written"),
        }
    }
}

impl Error for Trouble {}

// A read failed when so many bytes had been read.
#[derive(Clone, Copy, Debug, PartialEq, Eq)]
pub struct Cut {
    pub count: usize,
}

impl From<Cut> for Trouble {
    ghost from_gives = { λ _ trouble. trouble ≡ Unreadable };

    fn from(_cut: Cut) -> Trouble {
        Trouble::Unreadable
    }
}
