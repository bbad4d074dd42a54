// The repetition code as an issuer and as a code.
ghost use Rattle.std.specs.Prelude.{◌≡◌};
ghost use Rattle.repetition.specs.Repeats.{repetition};
ghost use Rattle.repetition.specs.Sound.{repetition-sound, needs_none};

use crate::majority::majority;
use codes::fault::{CodeFault, FitnessFault};
use codes::interface::{Code, Issuer};

// Messages have one number below the order, and words have it as often as they are long.
#[derive(Clone, Copy)]
pub struct Repetition {
    order: u32,
    length: usize,
}

impl Repetition {
    ghost use Rattle.repetition.specs.Made.{Repeats};

    // The code whose words are `length` times one number below the order.
    pub fn new(order: u32, length: usize) -> Repetition
        ensures meaning { ⟦<Repetition as Issuer>⟧.meaning result ≡ repetition order length }
        ensures repeats { Repeats order length (⟦<Repetition as Issuer>⟧.meaning result) }
        ensures need { ⟦<Repetition as Code>⟧.need result ≡ 0 }
    {
        Repetition { order, length }
    }
}

impl Issuer for Repetition {
    ghost meaning = { λ c. repetition c.order c.length };

    ghost sound = { λ c fit. repetition-sound c.order c.length fit };

    fn fitness(&self) -> Result<(), FitnessFault> {
        if self.length == 0 || self.length > 128 {
            return Err(FitnessFault::Length);
        }
        if self.order < 2 || self.order > 65536 {
            return Err(FitnessFault::Order);
        }
        Ok(())
    }

    fn order(&self) -> u32 {
        self.order
    }

    fn length(&self) -> usize {
        self.length
    }

    fn dimension(&self) -> usize {
        1
    }

    fn distance(&self) -> usize {
        self.length
    }

    fn issue(&self, message: &[u16], word: &mut [u16]) -> Result<(), CodeFault> {
        self.check_issue(message, word.len())?;
        word.fill(message[0]);
        Ok(())
    }
}

impl Code for Repetition {
    ghost need = { λ _. 0 };

    ghost needs = { λ c fit. needs_none };

    fn need(&self) -> usize {
        0
    }

    fn decode(
        &self,
        received: &[u16],
        marks: &[u8],
        message: &mut [u16],
        scratch: &mut [u16],
    ) -> Result<usize, CodeFault> {
        self.check_decode(received, marks, message.len(), scratch.len())?;
        let (number, wrong) = majority(self.order, received, marks)?;
        message[0] = number;
        Ok(wrong)
    }
}
