// Issues words: reads a field, points and messages from standard input, a line each, and prints each message's word.
//
//     field prime 7            or: field gf256
//     points 1 2 3 4 5 6
//     message 3 0 2 1
//
// The word of a message is the values, at the points, of the polynomial with these coefficients, the constant first.
// A line that is not understood gets one line that says so, and the next line is read.

#![tactic(auto)]

ghost use Rattle.std.specs.Prelude.{◌≡◌, IfOk};
ghost use Rattle.linear.specs.Operations.{operations};
ghost use Rattle.linear.specs.Polynomials.{word};

use fields::any::AnyField;
use fields::field::Field;
use linear::polynomial::evaluate;
use std::alloc::{AllocError, Global};
use std::num::ParseIntError;
use std::str::Lines;
use std::{fmt, io};
use texts::spaced::Spaced;
use texts::words::Words;

// Why a line has no answer.
#[derive(Debug, Drop)]
enum Trouble {
    // It does not begin with a word that is known, or what follows is no list of numbers.
    Unknown,
    // A number that is not below the field's order.
    Number { number: u16, order: u32 },
    // There is no memory for its numbers.
    Memory,
    // The answer is not made, or not printed.
    Output(io::Error),
}

impl From<ParseIntError> for Trouble {
    fn from(_error: ParseIntError) -> Trouble {
        Trouble::Unknown
    }
}

impl From<AllocError> for Trouble {
    fn from(_error: AllocError) -> Trouble {
        Trouble::Memory
    }
}

impl From<io::Error> for Trouble {
    fn from(error: io::Error) -> Trouble {
        Trouble::Output(error)
    }
}

impl fmt::Display for Trouble {
    fn fmt<W: fmt::Write>(&self, f: &mut fmt::Formatter<W>) -> fmt::Result {
        match self {
            Trouble::Unknown => f.write_str("not understood"),
            Trouble::Number { number, order } => write!(f, "{number} is not below {order}"),
            Trouble::Memory => f.write_str("no memory"),
            Trouble::Output(error) => write!(f, "{error}"),
        }
    }
}

// The field that a line names: `field gf256`, or `field prime` and a listed modulus.
fn named_field(line: &str) -> Option<AnyField> {
    let mut words = Words::of(line);
    words.expect("field").ok()?;
    words.field().ok()?.ok()
}

// The number in a word, which has to be below the order.
fn number_below(order: u32, word: &str) -> Result<u16, Trouble> {
    let number = word.parse::<u16>()?;
    if u32::from(number) < order {
        Ok(number)
    } else {
        Err(Trouble::Number { number, order })
    }
}

// The numbers with which a line goes on, each below the field's order.
fn numbers<F: Field>(heap: Global, field: &F, words: Words<'_>) -> Result<Vec<u16>, Trouble> {
    words
        .map(|word| number_below(field.order(), word))
        .try_collect(heap)
}

// The word of a message: the values of its polynomial at the points.
fn word_of<F: Field>(
    heap: Global,
    field: &F,
    points: &[u16],
    message: &[u16],
) -> Result<Vec<u16>, AllocError>
    ensures { IfOk result (λ v. v.items ≡ word (operations F.Field field.now) points.now message.now) }
{
    points
        .iter()
        .map(|x| evaluate(field, message, *x))
        .collect(heap)
}

// Words over a field: the points that are set are kept for the messages that follow.
#[derive(Drop)]
struct Bench<'a> {
    rt: &'a HostRuntime,
    field: AnyField,
    points: Vec<u16>,
}

impl Bench<'_> {
    // Answers one line: points are kept, and a message's word is printed.
    fn answer(&mut self, line: &str) -> Result<(), Trouble> {
        let heap = self.rt.alloc();
        let mut words = Words::of(line);
        match words.next() {
            None => {}
            Some("points") => self.points = numbers(heap, &self.field, words)?,
            Some("message") => {
                let message = numbers(heap, &self.field, words)?;
                let word = word_of(heap, &self.field, &self.points, &message).map_err(
                    io::Error::from,
                )?;
                println!(self.rt; "word{}", Spaced(&word))?;
            }
            Some(_) => return Err(Trouble::Unknown),
        }
        Ok(())
    }

    // Answers each line; the first of them is the second of the input.
    fn answer_all(&mut self, lines: Lines<'_>) -> io::Result<()> {
        for (i, line) in lines.enumerate() {
            let at = i.saturating_add(2);
            match self.answer(line) {
                Ok(()) => {}
                Err(Trouble::Output(error)) => return Err(error),
                Err(trouble) => println!(self.rt; "line {at}: {trouble}")?,
            }
        }
        Ok(())
    }
}

fn main(rt: HostRuntime) -> anyhow::Result<()> {
    let text = io::read_to_string(rt.alloc(), rt.stdin())?;
    let mut lines = text.as_str().lines();
    let Some(field) = named_field(lines.next().unwrap_or("")) else {
        println!(rt; "line 1: `field gf256`, or `field prime` and a listed modulus, was expected")?;
        return Ok(());
    };
    let points = Vec::new(rt.alloc());
    Bench {
        rt: &rt,
        field,
        points,
    }
    .answer_all(lines)?;
    Ok(())
}

#[cfg(test)]
mod tests {
    use super::*;
    use fields::gf256::Gf256;
    use fields::prime::Prime;
    use std::test::Fail;

    #[test]
    fn words_over_both_fields(rt: HostRuntime) -> Result<(), Fail> {
        let heap = rt.alloc();
        let seven = Prime::new(7)?;
        assert_eq!(rt;
            word_of(heap, &seven, &[1, 2, 3, 4, 5, 6], &[3, 0, 2, 1])?.as_slice(),
            [6, 5, 6, 1, 3, 4].as_slice()
        );
        assert_eq!(rt;
            word_of(heap, &seven, &[1, 3, 2, 6, 4, 5], &[3, 0, 2, 1])?.as_slice(),
            [6, 6, 5, 4, 1, 3].as_slice()
        );
        assert_eq!(rt;
            word_of(heap, &Gf256::new(), &[0, 1, 2], &[5, 7])?.as_slice(),
            [5, 2, 11].as_slice()
        );
        Ok(())
    }
}
