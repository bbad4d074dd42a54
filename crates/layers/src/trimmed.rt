// A layer over any code: the last numbers of a message are 0, and are left out.
ghost use Rattle.std.specs.Prelude.{◌≡◌, length, drop, Ok};
ghost use Rattle.codes.specs.Meaning.{decode_check, Solved};
ghost use Rattle.layers.specs.Trimmed.{trimmed};
ghost use Rattle.layers.specs.TrimmedSound.{fit-below, trimmed-sound};

use codes::checks::check_zeros;
use codes::fault::{CodeFault, FitnessFault};
use codes::interface::{Code, Issuer};
use codes::numbers::{blank, gather};

// The code below, for messages that are `by` numbers shorter.
#[derive(Clone, Copy, Drop)]
pub struct Trimmed<C> {
    code: C,
    by: usize,
}

impl<C: Code> Trimmed<C> {
    ghost use Rattle.layers.specs.Made.{Trims};

    // The code whose messages are those of the code below without their last `by` numbers, which are 0.
    pub fn new(code: C, by: usize) -> Trimmed<C>
        ensures meaning { ⟦<Trimmed<C> as Issuer>⟧.meaning result ≡ trimmed by (C.Issuer.meaning code) }
        ensures trims { Trims by (C.Issuer.meaning code) (⟦<Trimmed<C> as Issuer>⟧.meaning result) }
        ensures need { ⟦<Trimmed<C> as Code>⟧.need result ≡ C.Code.need code }
    {
        Trimmed { code, by }
    }
}

impl<C: Issuer> Issuer for Trimmed<C> {
    ghost meaning = { λ c. trimmed c.by (C.Issuer.meaning c.code) };

    ghost sound = { λ c fit.
        let B = C.Issuer.meaning c.code in
        let p = fit-below c.by B fit in
        trimmed-sound c.by B (C.Issuer.sound c.code p.0) p.1 };

    fn fitness(&self) -> Result<(), FitnessFault> {
        self.code.fitness()?;
        if self.by >= self.code.dimension() {
            return Err(FitnessFault::Trim);
        }
        Ok(())
    }

    fn order(&self) -> u32 {
        self.code.order()
    }

    fn length(&self) -> usize {
        self.code.length()
    }

    fn dimension(&self) -> usize {
        self.code.dimension().saturating_sub(self.by)
    }

    fn distance(&self) -> usize {
        self.code.distance()
    }

    fn issue(&self, message: &[u16], word: &mut [u16]) -> Result<(), CodeFault> {
        self.check_issue(message, word.len())?;
        let whole = gather(&message);
        let inner = self.code.dimension();
        self.code.issue(&whole[0..inner], word)
    }
}

impl<C: Code> Trimmed<C> {
    // Decodes by the code below, whose message goes into `whole`, and keeps what stands before the zeros.
    fn decode_whole(
        &self,
        received: &[u16],
        marks: &[u8],
        whole: &mut [u16],
        message: &mut [u16],
        scratch: &mut [u16],
    ) -> Result<usize, CodeFault>
        requires fit { decode_check (trimmed self.now.by (C.Issuer.meaning self.now.code)) (C.Code.need self.now.code)
            received.now marks.now (length message.old) (length scratch.old) ≡ Ok tt }
        requires long { length whole.old ≡ (C.Issuer.meaning self.now.code).dimension }
        ensures solved { Solved (trimmed self.now.by (C.Issuer.meaning self.now.code))
            received.now marks.now message.old message.new result }
        ensures rest { drop (C.Code.need self.now.code) scratch.new
            ≡ drop (C.Code.need self.now.code) scratch.old }
    {
        let wrong = self.code.decode(received, marks, whole, scratch)?;
        let kept = message.len();
        check_zeros(&whole[kept..])?;
        message.copy_from_slice(&whole[0..kept]);
        Ok(wrong)
    }
}

impl<C: Code> Code for Trimmed<C> {
    ghost need = { λ c. C.Code.need c.code };

    ghost needs = { λ c fit. C.Code.needs c.code (fit-below c.by (C.Issuer.meaning c.code) fit).0 };

    fn need(&self) -> usize {
        self.code.need()
    }

    fn decode(
        &self,
        received: &[u16],
        marks: &[u8],
        message: &mut [u16],
        scratch: &mut [u16],
    ) -> Result<usize, CodeFault> {
        self.check_decode(received, marks, message.len(), scratch.len())?;
        let mut whole = blank();
        let inner = self.code.dimension();
        self.decode_whole(received, marks, &mut whole[0..inner], message, scratch)
    }
}
