// The evaluation code: a message is a polynomial's coefficients, its word the values at the points.
ghost use Rattle.std.specs.Prelude.{◌≡◌, ℕ, ◌+◌, ◌*◌, length};
ghost use Rattle.linear.specs.Operations.{operations};
ghost use Rattle.linear.specs.Polynomials.{word as values};
ghost use Rattle.evaluation.specs.Evaluation.{evaluation};
ghost use Rattle.fields.specs.Laws.{Laws};
ghost use Rattle.evaluation.specs.Checked.{fit-proper};
ghost use Rattle.evaluation.specs.Evaluated.{proper_sound, needs_few};

use crate::decode::decode_in;
use crate::points::{check_points, check_shape};
use crate::received::ReceivedWord;
use codes::fault::{CodeFault, FitnessFault};
use codes::interface::{Code, Issuer};
use codes::numbers::{Numbers, gather};
use fields::field::Field;
use linear::polynomial::evaluate;

// The code of `dimension` coefficients at `length` points of a field.
#[derive(Drop)]
pub struct Evaluation<F, P> {
    field: F,
    length: u16,
    dimension: u16,
    points: P,
}

impl<F: Field, P: Numbers> Evaluation<F, P> {
    ghost use Rattle.evaluation.specs.Evaluation.{Evaluates};

    // The code of k coefficients at n points; the points need not be n, which makes the code unfit.
    pub fn new(field: F, n: u16, k: u16, points: P) -> Evaluation<F, P>
        ensures meaning { ⟦<Evaluation<F, P> as Issuer>⟧.meaning result ≡ evaluation (F.Field.arithmetic field) n k (P.Numbers.listed points) }
        ensures evaluates { Evaluates (F.Field.arithmetic field) n k (P.Numbers.listed points) (⟦<Evaluation<F, P> as Issuer>⟧.meaning result) }
        ensures need { ⟦<Evaluation<F, P> as Code>⟧.need result ≡ (n + 1) * (n + 3) }
    {
        Evaluation {
            field,
            length: n,
            dimension: k,
            points,
        }
    }
}

impl<F: Field, P: Numbers> Issuer for Evaluation<F, P> {
    ghost meaning = { λ c. evaluation (F.Field.arithmetic c.field) c.length c.dimension (P.Numbers.listed c.points) };

    ghost sound = { λ c fit.
        let x = c.field in
        let F' = F.Field.arithmetic x in
        let L : Laws F' = record { sizes = F.Field.sizes x; sums = F.Field.sums x; products = F.Field.products x; inverses = F.Field.inverses x } in
        let points = P.Numbers.listed c.points in
        proper_sound F' L c.length c.dimension points (fit-proper F'.order c.length c.dimension points fit) };

    fn fitness(&self) -> Result<(), FitnessFault> {
        let n = usize::from(self.length);
        check_shape(n, usize::from(self.dimension), self.points.count())?;
        let points = gather(&self.points);
        check_points(self.field.order(), &points[0..n])
    }

    fn order(&self) -> u32 {
        self.field.order()
    }

    fn length(&self) -> usize {
        usize::from(self.length)
    }

    fn dimension(&self) -> usize {
        usize::from(self.dimension)
    }

    fn distance(&self) -> usize {
        usize::from(self.length).saturating_sub(usize::from(self.dimension)) + 1
    }

    fn issue(&self, message: &[u16], word: &mut [u16]) -> Result<(), CodeFault> {
        self.check_issue(message, word.len())?;
        let points = gather(&self.points);
        word.copy_from_slice(&points[0..word.len()]);
        evaluate_all(&self.field, message, word);
        Ok(())
    }
}

impl<F: Field, P: Numbers> Code for Evaluation<F, P> {
    ghost need = { λ c. (c.length + 1) * (c.length + 3) };

    ghost needs = { λ c fit. needs_few (F.Field.arithmetic c.field).order c.length c.dimension (P.Numbers.listed c.points) fit };

    fn need(&self) -> usize {
        let n = usize::from(self.length);
        (n + 1) * (n + 3)
    }

    fn decode(
        &self,
        received: &[u16],
        marks: &[u8],
        message: &mut [u16],
        scratch: &mut [u16],
    ) -> Result<usize, CodeFault> {
        self.check_decode(received, marks, message.len(), scratch.len())?;
        let points = gather(&self.points);
        let need = self.need();
        let received = ReceivedWord {
            points: &points[0..received.len()],
            numbers: received,
            marks,
        };
        decode_in(&self.field, &received, message, &mut scratch[0..need])
    }
}

// Replaces each point by the value of the message's polynomial at it.
fn evaluate_all<F: Field>(f: &F, message: &[u16], points: &mut [u16])
    ensures { points.new ≡ values (operations F.Field f.now) points.old message.now }
{
    for x in points.iter_mut() {
        *x = evaluate(f, message, *x);
    }
}
