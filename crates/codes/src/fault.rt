// Why a code declines: it is unfit, or a call's arguments are refused.
ghost use Rattle.std.specs.Prelude.{◌≡◌, Some};
ghost use Rattle.codes.specs.Faults.{number, place, text, unfit_number, unfit_place};
ghost use Rattle.codes.specs.declared.fault.CodeFault.TheVariants.{Unfit};

use std::fmt;

// Why a code is unfit.
#[derive(Clone, Copy, PartialEq, Eq, Debug)]
pub enum FitnessFault {
    // Words have no place or more than 128, or a list has not one number for each place.
    Length,
    // Messages have no number, or more than words have.
    Dimension,
    // The point at this place is not below the order, or equals an earlier one.
    Point(usize),
    // The order is not from 2 to 65,536.
    Order,
    // No number of a message is left.
    Trim,
    // The field's order is not the code's.
    FieldSize,
    // The multiplier at this place is 0 or not below the order.
    Multiplier(usize),
}

// Why a code refuses a call.
#[derive(Clone, Copy, PartialEq, Eq, Debug)]
pub enum CodeFault {
    // The code is unfit.
    Unfit(FitnessFault),
    // The message, or the buffer for it, has not the code's dimension.
    MessageLength,
    // The word, the buffer for it or the marks have not the code's length.
    WordLength,
    // The number at this place is not below the order.
    Number(usize),
    // The scratch is shorter than the code needs.
    Scratch,
    // No message is within reach.
    Reach,
}

impl FitnessFault {
    // The number by which the fault is reported, as C and the programs take it.
    pub fn number(self) -> u8
        ensures { result ≡ unfit_number self }
    {
        match self {
            FitnessFault::Length => 2,
            FitnessFault::Dimension => 3,
            FitnessFault::Point(_) => 4,
            FitnessFault::Order => 5,
            FitnessFault::Trim => 6,
            FitnessFault::FieldSize => 7,
            FitnessFault::Multiplier(_) => 8,
        }
    }

    // The place that the fault reports, or 0, as C and the programs take it.
    pub fn place(self) -> usize
        ensures { result ≡ unfit_place self }
    {
        match self {
            FitnessFault::Point(place) | FitnessFault::Multiplier(place) => place,
            _ => 0,
        }
    }
}

impl CodeFault {
    // The number by which the fault is reported, as C and the programs take it.
    pub fn number(self) -> u8
        ensures { result ≡ number self }
    {
        match self {
            CodeFault::Unfit(fault) => fault.number(),
            CodeFault::MessageLength => 9,
            CodeFault::WordLength => 10,
            CodeFault::Number(_) => 11,
            CodeFault::Scratch => 12,
            CodeFault::Reach => 13,
        }
    }

    // The place that the fault reports, or 0, as C and the programs take it.
    pub fn place(self) -> usize
        ensures { result ≡ place self }
    {
        match self {
            CodeFault::Unfit(fault) => fault.place(),
            CodeFault::Number(place) => place,
            _ => 0,
        }
    }
}

// Prints it as the fault of a call that it refuses.
impl fmt::Display for FitnessFault {
    ghost output = { λ f. Some (text (Unfit f)) };

    fn fmt<W: fmt::Write>(&self, f: &mut fmt::Formatter<W>) -> fmt::Result {
        fmt::Display::fmt(&CodeFault::from(*self), f)
    }
}

// Prints the number and the place, and 0 for the row.
impl fmt::Display for CodeFault {
    ghost output = { λ f. Some (text f) };

    fn fmt<W: fmt::Write>(&self, f: &mut fmt::Formatter<W>) -> fmt::Result {
        write!(f, "refused {} place {} row 0", self.number(), self.place())
    }
}

// An unfit code refuses every call with its fitness fault.
impl From<FitnessFault> for CodeFault {
    ghost from_gives = { λ f r. r ≡ Unfit f };

    fn from(reason: FitnessFault) -> CodeFault {
        CodeFault::Unfit(reason)
    }
}
