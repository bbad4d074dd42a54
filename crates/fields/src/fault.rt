// Why a field is not made.
ghost use Rattle.std.specs.Prelude.{◌≡◌, Some};
ghost use Rattle.fields.specs.Faults.{number, text};

use std::fmt;

#[derive(Clone, Copy, PartialEq, Eq, Debug)]
pub enum FieldFault {
    // The modulus is not among the listed primes.
    Unlisted,
}

impl FieldFault {
    // The number by which the fault is reported, as the programs take it.
    pub fn number(self) -> u8
        ensures { result ≡ number self }
    {
        match self {
            FieldFault::Unlisted => 1,
        }
    }
}

// Prints the number, and 0 for the place and the row.
impl fmt::Display for FieldFault {
    ghost output = { λ f. Some (text f) };

    fn fmt<W: fmt::Write>(&self, f: &mut fmt::Formatter<W>) -> fmt::Result {
        write!(f, "refused {} place 0 row 0", self.number())
    }
}
