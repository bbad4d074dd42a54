// The checks and counts that every code shares.
ghost use Rattle.std.specs.Prelude.{◌≡◌};
ghost use Rattle.codes.specs.Checks.{number_check, unmarked_check, zero_check};
ghost use Rattle.codes.specs.Words.{missing};

use crate::fault::CodeFault;
use fields::numbers::find_stray;

// Refuses the first number that is not below the order.
pub fn check_numbers(order: u32, numbers: &[u16]) -> Result<(), CodeFault>
    ensures { result ≡ number_check order 0 numbers.now }
{
    match find_stray(order, numbers) {
        Some(place) => Err(CodeFault::Number(place)),
        None => Ok(()),
    }
}

// Refuses the first number that is not below the order at a place that is marked by 0.
pub fn check_unmarked(order: u32, numbers: &[u16], marks: &[u8]) -> Result<(), CodeFault>
    ensures { result ≡ unmarked_check order 0 numbers.now marks.now }
{
    for (place, (number, mark)) in numbers.iter().zip(marks).enumerate() {
        if *mark == 0 && u32::from(*number) >= order {
            return Err(CodeFault::Number(place));
        }
    }
    Ok(())
}

// How many places are missing: a mark of any value but 0 says so.
pub fn count_missing(marks: &[u8]) -> usize
    ensures { result ≡ missing marks.now }
{
    let mut count: usize = 0;
    // A rule of the project: missing places are counted by a loop over the marks.
    for mark in marks {
        if *mark != 0 {
            count += 1;
        }
    }
    count
}

// Refuses numbers that are not all 0, since there is then no message within reach.
pub fn check_zeros(numbers: &[u16]) -> Result<(), CodeFault>
    ensures { result ≡ zero_check numbers.now }
{
    for x in numbers {
        if *x != 0 {
            return Err(CodeFault::Reach);
        }
    }
    Ok(())
}
