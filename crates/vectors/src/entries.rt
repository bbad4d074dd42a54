// Numbers of which some are missing, as a code takes them: numbers and marks.
ghost use Rattle.std.specs.Prelude.{◌≡◌, map, IfOk, Some};
ghost use Rattle.vectors.specs.Entries.{number, mark};

use std::alloc::{AllocError, Global};

// The numbers; where one is missing there stands 65,535, which no code looks at.
pub fn numbers_of(heap: Global, entries: &[Option<u16>]) -> Result<Vec<u16>, AllocError>
    ensures { IfOk result (λ v. v.items ≡ map number entries.now) }
{
    entries
        .iter()
        .map(|entry| entry.unwrap_or(65535))
        .collect(heap)
}

// The marks: 0 where a number is present, 1 where it is missing.
pub fn marks_of(heap: Global, entries: &[Option<u16>]) -> Result<Vec<u8>, AllocError>
    ensures { IfOk result (λ v. v.items ≡ map mark entries.now) }
{
    entries
        .iter()
        .map(|entry| u8::from(entry.is_none()))
        .collect(heap)
}

// Entries of which none is missing.
pub fn all_present(heap: Global, numbers: &[u16]) -> Result<Vec<Option<u16>>, AllocError>
    ensures { IfOk result (λ v. v.items ≡ map Some numbers.now) }
{
    numbers.iter().map(|number| Some(*number)).collect(heap)
}
