// Why a file is declined.
ghost use Rattle.std.specs.Prelude.{◌≡◌, Some};
ghost use Rattle.file.specs.Faults.{number, place, row, text};
ghost use Rattle.file.specs.declared.fault.FileFault.TheVariants.{Collector};

use carrier::fault::CollectorFault;
use std::fmt;

#[derive(Clone, Copy, PartialEq, Debug)]
pub enum FileFault {
    // There is no room for a trailer, or the file is longer than a program takes.
    TooShort,
    // The field byte and the field number name no field.
    Field,
    // The back count does not lead to whole strips of the file.
    BackCount,
    // The collector that the heading asks for is not fit, or it declines a call.
    Collector(CollectorFault),
    // The output is shorter than the file.
    Output,
}

impl FileFault {
    // The number by which the fault is reported, as C and the programs take it.
    pub fn number(self) -> u8
        ensures { result ≡ number self }
    {
        match self {
            FileFault::TooShort => 20,
            FileFault::Field => 21,
            FileFault::BackCount => 22,
            FileFault::Collector(fault) => fault.number(),
            FileFault::Output => 23,
        }
    }

    // The place that the fault reports, or 0, as C and the programs take it.
    pub fn place(self) -> usize
        ensures { result ≡ place self }
    {
        match self {
            FileFault::Collector(fault) => fault.place(),
            _ => 0,
        }
    }

    // The row that the fault reports, or 0, as C and the programs take it.
    pub fn row(self) -> usize
        ensures { result ≡ row self }
    {
        match self {
            FileFault::Collector(fault) => fault.row(),
            _ => 0,
        }
    }
}

// Prints the number, the place and the row.
impl fmt::Display for FileFault {
    ghost output = { λ f. Some (text f) };

    fn fmt<W: fmt::Write>(&self, f: &mut fmt::Formatter<W>) -> fmt::Result {
        write!(
            f,
            "refused {} place {} row {}",
            self.number(),
            self.place(),
            self.row()
        )
    }
}

// A fault of the collector is carried whole.
impl From<CollectorFault> for FileFault {
    ghost from_gives = { λ f r. r ≡ Collector f };

    fn from(fault: CollectorFault) -> FileFault {
        FileFault::Collector(fault)
    }
}
