// A layer over any code: each number of a word is multiplied by a multiplier of its own.
ghost use Rattle.std.specs.Prelude.{◌≡◌};
ghost use Rattle.layers.specs.Scaled.{scaled};
ghost use Rattle.layers.specs.ScaledSound.{lawful, scaling, scaled-sound};

use crate::scaling;
use codes::fault::{CodeFault, FitnessFault};
use codes::interface::{Code, Issuer};
use codes::numbers::Numbers;
use fields::field::Field;

// The code below, with a field and a multiplier for each place.
#[derive(Drop)]
pub struct Scaled<F, M, C> {
    field: F,
    multipliers: M,
    code: C,
}

impl<F: Field, M: Numbers, C: Code> Scaled<F, M, C> {
    ghost use Rattle.layers.specs.Made.{Scales};

    // The code whose words are those of the code below, times the multipliers.
    pub fn new(field: F, multipliers: M, code: C) -> Scaled<F, M, C>
        ensures meaning { ⟦<Scaled<F, M, C> as Issuer>⟧.meaning result
            ≡ scaled (F.Field.arithmetic field) (M.Numbers.listed multipliers) (C.Issuer.meaning code) }
        ensures scales { Scales (F.Field.arithmetic field) (M.Numbers.listed multipliers) (C.Issuer.meaning code)
            (⟦<Scaled<F, M, C> as Issuer>⟧.meaning result) }
        ensures need { ⟦<Scaled<F, M, C> as Code>⟧.need result ≡ C.Code.need code }
    {
        Scaled {
            field,
            multipliers,
            code,
        }
    }
}

impl<F: Field, M: Numbers, C: Issuer> Issuer for Scaled<F, M, C> {
    ghost meaning = { λ c. scaled (F.Field.arithmetic c.field) (M.Numbers.listed c.multipliers) (C.Issuer.meaning c.code) };

    ghost sound = { λ c fit.
        let F' = F.Field.arithmetic c.field in
        let L = lawful (F.Field.sizes c.field) (F.Field.sums c.field) (F.Field.products c.field) (F.Field.inverses c.field) in
        let xs = M.Numbers.listed c.multipliers in
        let B = C.Issuer.meaning c.code in
        let p = scaling F' xs B fit in
        scaled-sound F' L xs B (C.Issuer.sound c.code p.fits) p };

    fn fitness(&self) -> Result<(), FitnessFault> {
        self.code.fitness()?;
        if self.multipliers.count() != self.code.length() {
            return Err(FitnessFault::Length);
        }
        let order = self.code.order();
        if self.field.order() != order {
            return Err(FitnessFault::FieldSize);
        }
        scaling::check_multipliers(order, &self.multipliers)
    }

    fn order(&self) -> u32 {
        self.code.order()
    }

    fn length(&self) -> usize {
        self.code.length()
    }

    fn dimension(&self) -> usize {
        self.code.dimension()
    }

    fn distance(&self) -> usize {
        self.code.distance()
    }

    fn issue(&self, message: &[u16], word: &mut [u16]) -> Result<(), CodeFault> {
        self.check_issue(message, word.len())?;
        self.code.issue(message, word)?;
        scaling::scale_word(&self.field, &self.multipliers, word);
        Ok(())
    }
}

impl<F: Field, M: Numbers, C: Code> Code for Scaled<F, M, C> {
    ghost need = { λ c. C.Code.need c.code };

    ghost needs = { λ c fit. C.Code.needs c.code (scaling (F.Field.arithmetic c.field) (M.Numbers.listed c.multipliers) (C.Issuer.meaning c.code) fit).fits };

    fn need(&self) -> usize {
        self.code.need()
    }

    fn decode(
        &self,
        received: &[u16],
        marks: &[u8],
        message: &mut [u16],
        scratch: &mut [u16],
    ) -> Result<usize, CodeFault> {
        self.check_decode(received, marks, message.len(), scratch.len())?;
        let word = scaling::divide_word(&self.field, &self.multipliers, received, marks);
        self.code
            .decode(&word[0..marks.len()], marks, message, scratch)
    }
}
