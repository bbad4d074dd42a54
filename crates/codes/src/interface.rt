// The issuing interface, and the code interface built on it.
ghost use Rattle.std.specs.Prelude.{◌≡◌, ℕ, ◌≤◌, length, Ok};
ghost use Rattle.codes.specs.Checks.{written};
ghost use Rattle.codes.specs.Meaning.{Meaning, Sound, issue_check, decode_check, Decoded};

use crate::checks::{check_numbers, check_unmarked};
use crate::fault::{CodeFault, FitnessFault};

// A code that gives each message a word. Its order, length, dimension and distance are promised to be in range only
// where it is fit, since only there the law speaks of them. No call alters a code.
pub trait Issuer {
    ghost meaning: { Self → Meaning };

    // Whether the code is fit, and if not, why.
    fn fitness(&self) -> Result<(), FitnessFault>
        ensures { result ≡ (meaning self.now).fitness };

    // The numbers of messages and words are those below the order; it may be 65,536.
    fn order(&self) -> u32
        ensures { result ≡ (meaning self.now).order };

    // How many numbers a word has.
    fn length(&self) -> usize
        ensures { result ≡ (meaning self.now).long };

    // How many numbers a message has.
    fn dimension(&self) -> usize
        ensures { result ≡ (meaning self.now).dimension };

    // In how many places the words of two different messages differ at least.
    fn distance(&self) -> usize
        ensures { result ≡ (meaning self.now).distance };

    // Writes the word of a message.
    fn issue(&self, message: &[u16], word: &mut [u16]) -> Result<(), CodeFault>
        ensures answer { result ≡ issue_check (meaning self.now) message.now (length word.old) }
        ensures buffer { word.new ≡ written result ((meaning self.now).word message.now) word.old };

    // The checks of `issue`; `room` is the length of the word's buffer.
    fn check_issue(&self, message: &[u16], room: usize) -> Result<(), CodeFault>
        ensures { result ≡ issue_check (meaning self.now) message.now room }
    {
        self.fitness()?;
        if message.len() != self.dimension() {
            return Err(CodeFault::MessageLength);
        }
        if room != self.length() {
            return Err(CodeFault::WordLength);
        }
        check_numbers(self.order(), message)
    }

    ghost sound: { (c : Self) → (meaning c).fitness ≡ Ok tt → Sound (meaning c) };
}

// A code that also finds the message behind a damaged word.
pub trait Code: Issuer {
    ghost need: { Self → ℕ };

    // How many numbers of scratch `decode` needs.
    fn need(&self) -> usize
        ensures { result ≡ need self.now };

    // Writes the message within reach of what was received, and answers its wrong count. A place whose mark is not 0 is
    // missing, and its number is not looked at. The marks lie beside the numbers, as C hands them in.
    fn decode(
        &self,
        received: &[u16],
        marks: &[u8],
        message: &mut [u16],
        scratch: &mut [u16],
    ) -> Result<usize, CodeFault>
        ensures { Decoded (Self.Issuer.meaning self.now) (need self.now)
            received.now marks.now message.old message.new
            scratch.old scratch.new result };

    // The checks of `decode`; `room` and `lent` are the lengths of the message's buffer and of the scratch.
    fn check_decode(
        &self,
        received: &[u16],
        marks: &[u8],
        room: usize,
        lent: usize,
    ) -> Result<(), CodeFault>
        ensures { result ≡ decode_check (Self.Issuer.meaning self.now) (need self.now)
            received.now marks.now room lent }
    {
        self.fitness()?;
        let n = self.length();
        if received.len() != n || marks.len() != n {
            return Err(CodeFault::WordLength);
        }
        if room != self.dimension() {
            return Err(CodeFault::MessageLength);
        }
        if lent < self.need() {
            return Err(CodeFault::Scratch);
        }
        check_unmarked(self.order(), received, marks)
    }

    ghost needs: { (c : Self) → (Self.Issuer.meaning c).fitness ≡ Ok tt → need c ≤ 20000 };
}
