// Why a collector declines a call.
ghost use Rattle.std.specs.Prelude.{◌≡◌, Some};
ghost use Rattle.codes.specs.declared.fault.CodeFault.TheVariants.{Unfit};
ghost use Rattle.carrier.specs.Faults.{number, place, row, text};
ghost use Rattle.carrier.specs.declared.fault.CollectorFault.TheVariants.{Code};

use codes::fault::{CodeFault, FitnessFault};
use std::fmt;

#[derive(Clone, Copy, PartialEq, Debug)]
pub enum CollectorFault {
    // The code's fault, and the row of the sheet that it is about.
    Code { fault: CodeFault, row: usize },
    // The depth is 0 or above 16.
    Depth,
    // The place is not below the length of a word.
    Place,
    // The strip has not as many numbers as the sheet has rows.
    StripLength,
    // The place holds a strip already.
    Taken,
    // The place holds nothing.
    Vacant,
    // The sheet's buffer has not one number for each row and each number of a message.
    SheetLength,
}

// The code's fault in a row.
#[derive(Clone, Copy)]
pub struct RowFault {
    pub fault: CodeFault,
    pub row: usize,
}

impl CollectorFault {
    // The number by which the fault is reported, as C and the programs take it.
    pub fn number(self) -> u8
        ensures { result ≡ number self }
    {
        match self {
            CollectorFault::Code { fault, row: _ } => fault.number(),
            CollectorFault::Depth => 14,
            CollectorFault::Place => 15,
            CollectorFault::StripLength => 16,
            CollectorFault::Taken => 17,
            CollectorFault::Vacant => 18,
            CollectorFault::SheetLength => 19,
        }
    }

    // The place that the fault reports, or 0, as C and the programs take it.
    pub fn place(self) -> usize
        ensures { result ≡ place self }
    {
        match self {
            CollectorFault::Code { fault, row: _ } => fault.place(),
            _ => 0,
        }
    }

    // The row that the fault reports, or 0, as C and the programs take it.
    pub fn row(self) -> usize
        ensures { result ≡ row self }
    {
        match self {
            CollectorFault::Code { fault: _, row } => row,
            _ => 0,
        }
    }
}

// Prints the number, the place and the row.
impl fmt::Display for CollectorFault {
    ghost output = { λ f. Some (text f) };

    fn fmt<W: fmt::Write>(&self, f: &mut fmt::Formatter<W>) -> fmt::Result {
        write!(
            f,
            "refused {} place {} row {}",
            self.number(),
            self.place(),
            self.row()
        )
    }
}

// A fault of the code's fitness is the code's fault.
impl From<FitnessFault> for CollectorFault {
    ghost from_gives = { λ f r. r ≡ Code (Unfit f) 0 };

    fn from(fault: FitnessFault) -> CollectorFault {
        CollectorFault::Code {
            fault: CodeFault::Unfit(fault),
            row: 0,
        }
    }
}

// A fault of the code that is about no row has row 0.
impl From<CodeFault> for CollectorFault {
    ghost from_gives = { λ f r. r ≡ Code f 0 };

    fn from(fault: CodeFault) -> CollectorFault {
        CollectorFault::Code { fault, row: 0 }
    }
}

// A fault of the code in a row is carried whole, with its row.
impl From<RowFault> for CollectorFault {
    ghost from_gives = { λ f r. r ≡ Code f.fault f.row };

    fn from(f: RowFault) -> CollectorFault {
        CollectorFault::Code {
            fault: f.fault,
            row: f.row,
        }
    }
}
