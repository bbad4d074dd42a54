// The decoder's equations, written into the scratch row after row.
ghost use Rattle.std.specs.Prelude.{◌≡◌, ℕ, ◌-◌, ◌*◌, ◌≤◌, length};
ghost use Rattle.linear.specs.Operations.{operations};
ghost use Rattle.evaluation.specs.Decoding.{present, powers, equation, Equations};

use crate::received::ReceivedWord;
use fields::field::Field;

// One row of `w` coefficients for each place that is not marked: those of Q0(x) + y Q1(x), of which `a` are those of Q0.
pub fn write_equations<F: Field>(
    f: &F,
    received: &ReceivedWord<'_>,
    a: usize,
    w: usize,
    rows: &mut [u16],
)
    requires split { a ≤ w }
    requires size { let r = received.now in length (present r.marks.now r.points.now) * w ≡ length rows.old }
    ensures { let r = received.now in Equations (operations F.Field f.now) w a (present r.marks.now r.points.now) (present r.marks.now r.numbers.now) rows.new }
{
    let mut r = 0;
    let numbers = received.points.iter().zip(received.numbers);
    for ((x, y), mark) in numbers.zip(received.marks) {
        if *mark == 0 {
            let from = r * w;
            write_equation(f, &mut rows[from..from + w], a, *x, *y);
            r += 1;
        }
    }
}

// The coefficients of the unknowns in Q0(x) + y Q1(x), the first `a` of them those of Q0.
fn write_equation<F: Field>(f: &F, row: &mut [u16], a: usize, x: u16, y: u16)
    requires { a ≤ length row.old }
    ensures { row.new ≡ equation (operations F.Field f.now) a (length row.old - a) x y }
{
    let w = row.len();
    write_powers(f, &mut row[0..a], 1, x);
    write_powers(f, &mut row[a..w], y, x);
}

// start, start × x, start × x² and so on
fn write_powers<F: Field>(f: &F, part: &mut [u16], start: u16, x: u16)
    ensures { part.new ≡ powers (operations F.Field f.now) start x (length part.old) }
{
    let mut p = start;
    for z in part.iter_mut() {
        *z = p;
        p = f.multiply(p, x);
    }
}
