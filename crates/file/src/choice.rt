// The code that a heading asks for, of one type or the other by the heading's field byte.
ghost use Rattle.std.specs.Prelude.{◌≡◌};
ghost use Rattle.carrier.specs.Checks.{fit_check};
ghost use Rattle.file.specs.Lawful.{sound_in, need_few};
ghost use Rattle.file.specs.Meant.{Chosen, meaning_in, need_of};

use crate::fault::FileFault;
use crate::heading::Heading;
use carrier::fault::CollectorFault;
pub use carrier::fitness::check_fitness;
use codes::fault::{CodeFault, FitnessFault};
use codes::interface::{Code, Issuer};
use codes::numbers::Upto;
use evaluation::Evaluation;
use fields::gf256::Gf256;
use fields::prime::Prime;

// The evaluation code over a prime field, or over GF(256). It is a code itself, so that its callers need not ask which.
// Over a field that is chosen as the program runs, solving takes six times as long for GF(256).
#[derive(Drop)]
pub enum FileCode {
    Remainders(Evaluation<Prime, Upto>),
    Bytes(Evaluation<Gf256, Upto>),
}

impl FileCode {
    // The evaluation code that the heading asks for, with the points 0 to n - 1.
    pub fn new(heading: &Heading) -> Result<FileCode, FileFault>
        ensures { Chosen heading.now result }
    {
        let n = u16::from(heading.n);
        let k = u16::from(heading.k);
        match heading.kind {
            1 => {
                let Ok(field) = Prime::new(heading.modulus) else {
                    return Err(FileFault::Field);
                };
                Ok(FileCode::Remainders(Evaluation::new(field, n, k, Upto::new(n))))
            }
            2 if heading.modulus == 285 => {
                Ok(FileCode::Bytes(Evaluation::new(Gf256::new(), n, k, Upto::new(n))))
            }
            _ => Err(FileFault::Field),
        }
    }

    // Whether a collector of the code and the depth is fit, and if not, why.
    pub fn fitness(&self, depth: usize) -> Result<(), CollectorFault>
        ensures { result ≡ fit_check (meaning_in self.now) depth }
    {
        check_fitness(self, depth)
    }
}

impl Issuer for FileCode {
    ghost meaning = { meaning_in };

    ghost sound = { sound_in };

    fn fitness(&self) -> Result<(), FitnessFault> {
        match self {
            FileCode::Remainders(code) => code.fitness(),
            FileCode::Bytes(code) => code.fitness(),
        }
    }

    fn order(&self) -> u32 {
        match self {
            FileCode::Remainders(code) => code.order(),
            FileCode::Bytes(code) => code.order(),
        }
    }

    fn length(&self) -> usize {
        match self {
            FileCode::Remainders(code) => code.length(),
            FileCode::Bytes(code) => code.length(),
        }
    }

    fn dimension(&self) -> usize {
        match self {
            FileCode::Remainders(code) => code.dimension(),
            FileCode::Bytes(code) => code.dimension(),
        }
    }

    fn distance(&self) -> usize {
        match self {
            FileCode::Remainders(code) => code.distance(),
            FileCode::Bytes(code) => code.distance(),
        }
    }

    fn issue(&self, message: &[u16], word: &mut [u16]) -> Result<(), CodeFault> {
        match self {
            FileCode::Remainders(code) => code.issue(message, word),
            FileCode::Bytes(code) => code.issue(message, word),
        }
    }
}

impl Code for FileCode {
    ghost need = { λ c. need_of (meaning_in c) };

    ghost needs = { need_few };

    fn need(&self) -> usize {
        match self {
            FileCode::Remainders(code) => code.need(),
            FileCode::Bytes(code) => code.need(),
        }
    }

    fn decode(
        &self,
        received: &[u16],
        marks: &[u8],
        message: &mut [u16],
        scratch: &mut [u16],
    ) -> Result<usize, CodeFault> {
        match self {
            FileCode::Remainders(code) => code.decode(received, marks, message, scratch),
            FileCode::Bytes(code) => code.decode(received, marks, message, scratch),
        }
    }
}
