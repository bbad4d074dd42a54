// The answers of the library, compared with those that are expected.
ghost use Rattle.std.specs.Prelude.{◌≡◌, ℕ, IfOk};
ghost use Rattle.vectors.specs.Answers.{Same};
ghost use Rattle.vectors.specs.Decodings.{Gives};

use crate::entries::{marks_of, numbers_of};
use crate::questions::{Answer, CodeQuestion, FieldQuestion, FileQuestion, Question};
use crate::settings::Settings;
use crate::tally::Tally;
use carrier::collector::Collector;
use carrier::fault::CollectorFault;
use codes::fault::{CodeFault, FitnessFault};
use codes::interface::{Code, Issuer};
use evaluation::Evaluation;
use fields::any::AnyField;
use fields::fault::FieldFault;
use fields::field::Field;
use fields::prime::Prime;
use file::received::{Received, receive};
use layers::{Scaled, Trimmed};
use repetition::Repetition;
use std::alloc::{AllocError, Global};
use symbols::power;
use texts::fault::LineFault;

mod blocks;

// Asks the library, and compares; what the question is about has to be set. For a question about a code, which field is set gets
// asked once, here: `AnyField` would ask at each sum and product, and a word over GF(256) would take several times as long.
pub fn ask(heap: Global, settings: &Settings, question: &Question) -> Result<Tally, LineFault> {
    match question {
        Question::Modulus { modulus, expected } => Ok(ask_modulus(*modulus, expected)),
        Question::File(question) => {
            let Some(bytes) = &settings.file else {
                return Err(LineFault::Unknown);
            };
            Ok(ask_file(heap, bytes, question)?)
        }
        Question::Received(received) => blocks::ask_symbol(heap, settings, received),
        Question::Field(question) => {
            let field = settings.field.ok_or(LineFault::Unknown)?;
            Ok(ask_field(heap, &field, question)?)
        }
        Question::Code(question) => {
            let asking = Asking {
                heap,
                settings,
                question,
            };
            match settings.field.ok_or(LineFault::Unknown)? {
                AnyField::Prime(field) => asking.with_field(field),
                AnyField::Bytes(field) => asking.with_field(field),
            }
        }
    }
}

// Makes the prime field of a modulus.
fn ask_modulus(modulus: u16, expected: &Answer) -> Tally {
    let made = Prime::new(modulus).map(|_| ());
    compare(expected, &Answer::from(made.map_err(FieldFault::number)))
}

// Calculates in a field.
fn ask_field<F: Field>(
    heap: Global,
    field: &F,
    question: &FieldQuestion,
) -> Result<Tally, AllocError> {
    match question {
        FieldQuestion::Product { a, b, expected } => {
            Ok(Tally::of(field.multiply(*a, *b) == *expected))
        }
        FieldQuestion::Powers { of, expected } => {
            let powers = powers_of(heap, field, *of, expected.len())?;
            Ok(Tally::of_numbers(expected, &powers))
        }
        FieldQuestion::Inverses(expected) => Ok(compare_inverses(field, expected)),
    }
}

// The first powers of a number.
fn powers_of<F: Field>(
    heap: Global,
    field: &F,
    of: u16,
    count: usize,
) -> Result<Vec<u16>, AllocError> {
    (0..u16::try_from(count).unwrap_or(u16::MAX))
        .map(|i| power(field, of, i))
        .collect(heap)
}

// Compares the inverses of 0, 1, 2 and so on.
fn compare_inverses<F: Field>(field: &F, expected: &[Option<u16>]) -> Tally {
    let inverse_of = |i: usize| field.inverse(u16::try_from(i).unwrap_or(u16::MAX));
    expected
        .iter()
        .enumerate()
        .map(|(i, inverse)| Tally::of(inverse_of(i) == *inverse))
        .fold(Tally::default(), |sum, tally| sum + tally)
}

// A question about a code, with what its block has set.
#[derive(Clone, Copy)]
struct Asking<'a> {
    heap: Global,
    settings: &'a Settings,
    question: &'a CodeQuestion,
}

impl Asking<'_> {
    // Goes on with the code that is set over a field. Each field, each code and each layer is a type of its own, so each step is a
    // generic function.
    fn with_field<F: Field + Copy>(&self, field: F) -> Result<Tally, LineFault> {
        if let Some(length) = self.settings.repetition {
            let code = Repetition::new(field.order(), usize::from(length));
            return Ok(self.with_code(field, code)?);
        }
        let (Some(points), Some(k)) = (&self.settings.points, self.settings.dimension) else {
            return Err(LineFault::Unknown);
        };
        let n = u16::try_from(points.len()).unwrap_or(u16::MAX);
        let code = Evaluation::new(field, n, k, points.as_slice());
        Ok(self.with_code(field, code)?)
    }

    // Goes on with the multipliers, if any are set.
    fn with_code<F: Field + Copy, C: Code + Drop>(
        &self,
        field: F,
        code: C,
    ) -> Result<Tally, AllocError> {
        match &self.settings.multipliers {
            Some(multipliers) => self.with_scaled(Scaled::new(field, multipliers.as_slice(), code)),
            None => self.with_scaled(code),
        }
    }

    // Goes on with what is trimmed, if anything is.
    fn with_scaled<C: Code + Drop>(&self, code: C) -> Result<Tally, AllocError> {
        match self.settings.trimmed {
            Some(count) => self.with_layers(Trimmed::new(code, usize::from(count))),
            None => self.with_layers(code),
        }
    }

    // Asks the code.
    fn with_layers<C: Code + Drop>(&self, code: C) -> Result<Tally, AllocError> {
        match self.question {
            CodeQuestion::Fitness(expected) => {
                let fitness = code.fitness().map_err(FitnessFault::number);
                Ok(compare(expected, &Answer::from(fitness)))
            }
            CodeQuestion::Depth { depth, expected } => {
                let collector = Collector::new(code, usize::from(*depth));
                let fitness = collector.fitness().map_err(CollectorFault::number);
                Ok(compare(expected, &Answer::from(fitness)))
            }
            CodeQuestion::Word { message, expected } => match issue(self.heap, &code, message)? {
                Ok(word) => Ok(Tally::of_numbers(expected, &word)),
                Err(_) => Ok(Tally::of(false)),
            },
            CodeQuestion::Decode { received, expected } => {
                Ok(compare(expected, &decode(self.heap, &code, received)?))
            }
        }
    }
}

// The word of a message, or why it has none: a refusal is an answer to compare, a lack of memory ends the program.
fn issue<C: Code>(
    heap: Global,
    code: &C,
    message: &[u16],
) -> Result<Result<Vec<u16>, CodeFault>, AllocError>
    ensures { IfOk result (λ q. IfOk q (λ w. w.items ≡ (C.Issuer.meaning code.now).word message.now)) }
{
    let mut word = vec![in heap; 0u16; code.length()]?;
    Ok(code.issue(message, &mut word).map(|_| word))
}

// What a code makes of received numbers, with a buffer and a scratch of the right lengths.
fn decode<C: Code>(heap: Global, code: &C, received: &[Option<u16>]) -> Result<Answer, AllocError>
    ensures { IfOk result (Gives (C.Issuer.meaning code.now) received.now) }
{
    let numbers = numbers_of(heap, received)?;
    let marks = marks_of(heap, received)?;
    let mut message = vec![in heap; 0u16; code.dimension()]?;
    let mut scratch = vec![in heap; 0u16; code.need()]?;
    match code.decode(&numbers, &marks, &mut message, &mut scratch) {
        Ok(wrong) => Ok(Answer::Message { message, wrong }),
        Err(fault) => Ok(Answer::Refused(fault.number())),
    }
}

// Reads a file, and compares its counts or a row of its sheet.
fn ask_file(heap: Global, bytes: &[u8], question: &FileQuestion) -> Result<Tally, AllocError> {
    let Ok(received) = receive(bytes) else {
        return Ok(Tally::of(false));
    };
    match question {
        FileQuestion::Counts {
            kept,
            declined,
            wrong,
        } => Ok(
            Tally::of(received.kept == *kept)
                + Tally::of(received.declined == *declined)
                + Tally::of(received.wrong == *wrong),
        ),
        FileQuestion::Row { row, expected } => {
            let numbers = row_of(heap, &received, *row)?;
            Ok(Tally::of_numbers(expected, &numbers))
        }
    }
}

// The numbers of a row of the sheet.
fn row_of(heap: Global, received: &Received, row: u8) -> Result<Vec<u16>, AllocError> {
    (0..received.heading.k)
        .map(|place| received.number(row, place))
        .collect(heap)
}

// Compares two answers: a refusal by its number, a message by its numbers and its wrong count. Where nothing differs, both
// say the same.
fn compare(expected: &Answer, got: &Answer) -> Tally
    ensures { result.differing ≡ 0 → Same expected.now got.now }
{
    match (expected, got) {
        (Answer::Accepted, Answer::Accepted) => Tally::of(true),
        (Answer::Refused(a), Answer::Refused(b)) => Tally::of(*a == *b),
        (
            Answer::Message {
                message: a,
                wrong: e,
            },
            Answer::Message {
                message: b,
                wrong: f,
            },
        ) => Tally::of_numbers(a, b) + Tally::of(*e == *f),
        _ => Tally::of(false),
    }
}
