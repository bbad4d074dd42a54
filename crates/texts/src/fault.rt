// Why a line is not read.
ghost use Rattle.std.specs.Prelude.{◌≡◌, alloc_error};
ghost use Rattle.texts.specs.Understood.{understood_of};
ghost use Rattle.texts.specs.declared.fault.LineFault.TheVariants.{Unknown, Memory};

use std::alloc::{AllocError, AllocFailed};
use std::num::ParseIntError;

#[derive(Clone, Copy, PartialEq, Eq, Debug)]
pub enum LineFault {
    // A word is missing, or is one too many, or is not what has to stand there.
    Unknown,
    // There is no memory for what the line says.
    Memory(AllocError),
}

// Where there is no memory, the line is not read.
impl From<AllocError> for LineFault {
    ghost from_gives = { λ e r. r ≡ Memory e };

    fn from(error: AllocError) -> LineFault {
        LineFault::Memory(error)
    }
}

// Where there is no memory for an item, the line is not read.
impl<T: Drop> From<AllocFailed<T>> for LineFault {
    ghost from_gives = { λ _ r. r ≡ Memory alloc_error };

    fn from(error: AllocFailed<T>) -> LineFault {
        LineFault::Memory(AllocError::from(error))
    }
}

// A word that has to be a number and is none is not understood.
impl From<ParseIntError> for LineFault {
    ghost from_gives = { λ _ r. r ≡ Unknown };

    fn from(_error: ParseIntError) -> LineFault {
        LineFault::Unknown
    }
}

// What was read, or nothing where it is not understood.
pub fn understood<T>(read: Result<T, LineFault>) -> Result<Option<T>, AllocError>
    ensures { result ≡ understood_of read }
{
    match read {
        Ok(value) => Ok(Some(value)),
        Err(LineFault::Unknown) => Ok(None),
        Err(LineFault::Memory(error)) => Err(error),
    }
}
