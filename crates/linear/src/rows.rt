// Rows of numbers over any field: a row's multiple, a row less a multiple of another, and the sum of the products of two rows.
ghost use Rattle.std.specs.Prelude.{◌≡◌, length};
ghost use Rattle.linear.specs.Equations.{dot, reduced};
ghost use Rattle.linear.specs.Operations.{operations};
ghost use Rattle.linear.specs.Polynomials.{scaled};

use fields::field::Field;

// Multiplies every number of the row by `by`.
pub fn scale_row<F: Field>(f: &F, row: &mut [u16], by: u16)
    ensures { row.new ≡ scaled (operations F.Field f.now) by row.old }
{
    for x in row.iter_mut() {
        *x = f.multiply(by, *x);
    }
}

// Subtracts `by` times the pivot row from the target.
pub fn subtract_row<F: Field>(f: &F, target: &mut [u16], by: u16, pivot: &[u16])
    requires same { length pivot.now ≡ length target.old }
    ensures { target.new ≡ reduced (operations F.Field f.now) target.old by pivot.now }
{
    let opposite = f.negate(by);
    // By index, since after a `zip` with `iter_mut` a proof knows nothing of what was written.
    for (i, x) in target.iter_mut().enumerate() {
        *x = f.add(*x, f.multiply(opposite, pivot[i]));
    }
}

// The sum of the products of the numbers that stand at one place of both rows.
pub fn multiply_rows<F: Field>(f: &F, a: &[u16], b: &[u16]) -> u16
    requires same { length a.now ≡ length b.now }
    ensures { result ≡ dot (operations F.Field f.now) a.now b.now }
{
    let mut sum = 0;
    for (x, y) in a.iter().zip(b) {
        sum = f.add(sum, f.multiply(*x, *y));
    }
    sum
}
