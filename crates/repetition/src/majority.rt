// The number that was received often enough.
ghost use Rattle.std.specs.Prelude.{◌≡◌, ◌≤◌, length, replicate, Ok};
ghost use Rattle.codes.specs.Checks.{unmarked_check};
ghost use Rattle.codes.specs.Words.{wrong};
ghost use Rattle.repetition.specs.Repeats.{Nearest};

use codes::checks::count_missing;
use codes::fault::CodeFault;

// The number whose repetition is within reach of what was received, with its wrong count.
pub fn majority(order: u32, received: &[u16], marks: &[u8]) -> Result<(u16, usize), CodeFault>
    requires same { length received.now ≡ length marks.now }
    requires few { length received.now ≤ 128 }
    requires below { unmarked_check order 0 received.now marks.now ≡ Ok tt }
    ensures { Nearest order received.now marks.now result }
{
    let missing = count_missing(marks);
    for (number, mark) in received.iter().zip(marks) {
        if *mark == 0 {
            let wrong = count_wrong(received, marks, *number);
            if 2 * wrong + missing < received.len() {
                return Ok((*number, wrong));
            }
        }
    }
    Err(CodeFault::Reach)
}

// In how many unmarked places the received number is another one.
fn count_wrong(received: &[u16], marks: &[u8], number: u16) -> usize
    requires { length received.now ≡ length marks.now }
    ensures value { result ≡ wrong received.now marks.now (replicate (length received.now) number) }
    ensures few { result ≤ length received.now }
{
    let mut count: usize = 0;
    // A rule of the project: wrong numbers are counted over the marks, by index. The evaluation code counts its own, since it
    // computes each number of the word where it is compared.
    for (i, mark) in marks.iter().enumerate() {
        if *mark == 0 && received[i] != number {
            count += 1;
        }
    }
    count
}
