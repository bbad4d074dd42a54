// Decoding: with m unmarked places and t half of what they have more than the message, Q0 of m − t numbers and Q1 of t + 1,
// not all of them 0, satisfy Q0(x) + y Q1(x) = 0 at each unmarked place. A message within reach is −Q0 / Q1, and where that is
// a polynomial of as many numbers as a message has, it is within reach.
ghost use Rattle.std.specs.Prelude.{◌≡◌, ℕ, ◌+◌, ◌*◌, ◌≤◌, map, length};
ghost use Rattle.fields.specs.Numbers.{Below, Zeros};
ghost use Rattle.linear.specs.Operations.{operations};
ghost use Rattle.linear.specs.Polynomials.{word};
ghost use Rattle.codes.specs.Meaning.{Solved};
ghost use Rattle.codes.specs.Words.{wrong};
ghost use Rattle.evaluation.specs.Decoding.{present, Given, Located, Quotient};
ghost use Rattle.evaluation.specs.Evaluation.{evaluation};

use crate::equations::write_equations;
use crate::received::ReceivedWord;
use codes::checks::{check_zeros, count_missing};
use codes::fault::CodeFault;
use fields::field::Field;
use linear::divide::divide;
use linear::polynomial::evaluate;
use linear::solve::solve;

// The message within reach and its wrong count, by way of a room of (n + 1) × (n + 3) numbers.
pub fn decode_in<F: Field>(
    f: &F,
    received: &ReceivedWord<'_>,
    message: &mut [u16],
    room: &mut [u16],
) -> Result<usize, CodeFault>
    requires given { let r = received.now in Given (operations F.Field f.now).order r.points.now r.numbers.now r.marks.now }
    requires dimension { 1 ≤ length message.old }
    requires fits { length message.old ≤ length received.now.points.now }
    requires room { let n = length received.now.points.now in (n + 1) * (n + 3) ≡ length room.old }
    ensures { let r = received.now in Solved (evaluation (F.Field.arithmetic f.now) (length r.points.now) (length message.old) r.points.now)
        r.numbers.now r.marks.now message.old message.new result }
{
    let m = received.points.len() - count_missing(received.marks);
    if m < message.len() {
        return Err(CodeFault::Reach);
    }
    locate(f, received, m, message, room)?;
    Ok(count_wrong(f, received, message))
}

// Solves the equations of the m unmarked places, and writes −Q0 / Q1.
fn locate<F: Field>(
    f: &F,
    received: &ReceivedWord<'_>,
    m: usize,
    message: &mut [u16],
    room: &mut [u16],
) -> Result<(), CodeFault>
    requires given { let r = received.now in Given (operations F.Field f.now).order r.points.now r.numbers.now r.marks.now }
    requires count { let r = received.now in m ≡ length (present r.marks.now r.points.now) }
    requires enough { length message.old ≤ m }
    requires dimension { 1 ≤ length message.old }
    requires room { (m + 1) * (m + 3) ≤ length room.old }
    ensures { let r = received.now in Located (operations F.Field f.now) (present r.marks.now r.points.now)
        (present r.marks.now r.numbers.now) message.old message.new result }
{
    let w = m + 1;
    let t = (m - message.len()) / 2;
    let (rows, rest) = room.split_at_mut(w * w);
    let (solution, quotient) = rest.split_at_mut(w);
    write_equations(f, received, m - t, w, &mut rows[0..m * w]);
    let Ok(()) = solve(f, rows, m, solution) else {
        unreachable()
    };
    let (q0, q1) = solution.split_at_mut(m - t);
    divide_out(f, q0, q1, &mut quotient[0..m - t], message)
}

// Writes −Q0 / Q1 where that is a polynomial of as many numbers as the message has.
fn divide_out<F: Field>(
    f: &F,
    q0: &mut [u16],
    q1: &[u16],
    quotient: &mut [u16],
    message: &mut [u16],
) -> Result<(), CodeFault>
    requires dividend { Below (operations F.Field f.now).order q0.old }
    requires divisor { Below (operations F.Field f.now).order q1.now }
    requires nonzero { Zeros q1.now → ⊥ }
    requires room { length quotient.old ≡ length q0.old }
    requires fits { length message.old ≤ length q0.old }
    ensures { Quotient (operations F.Field f.now) q0.old q1.now message.old message.new result }
{
    let Ok(()) = divide(f, q0, q1, quotient) else {
        unreachable()
    };
    let k = message.len();
    check_zeros(q0)?;
    check_zeros(&quotient[k..])?;
    message.copy_from_slice(&quotient[0..k]);
    negate_all(f, message);
    Ok(())
}

// Replaces each number by its opposite.
fn negate_all<F: Field>(f: &F, numbers: &mut [u16])
    ensures { numbers.new ≡ map (operations F.Field f.now).opposite numbers.old }
{
    for x in numbers.iter_mut() {
        *x = f.negate(*x);
    }
}

// In how many unmarked places the received number differs from the message's word.
fn count_wrong<F: Field>(f: &F, received: &ReceivedWord<'_>, message: &[u16]) -> usize
    ensures { let r = received.now in result ≡ wrong r.numbers.now r.marks.now (word (operations F.Field f.now) r.points.now message.now) }
{
    let mut wrong: usize = 0;
    // A rule of the project: wrong numbers are counted over the marks, by index.
    for (j, mark) in received.marks.iter().enumerate() {
        if *mark == 0 && received.numbers[j] != evaluate(f, message, received.points[j]) {
            wrong += 1;
        }
    }
    wrong
}
