// Powers in any field, and the points of a symbol.
ghost use Rattle.std.specs.Prelude.{◌≡◌};
ghost use Rattle.linear.specs.Operations.{operations};
ghost use Rattle.symbols.specs.Symbols.{power as powered, Points};

use fields::field::Field;

// x to the power of the exponent.
pub fn power<F: Field>(f: &F, x: u16, exponent: u16) -> u16
    ensures { result ≡ powered (operations F.Field f.now) x exponent }
{
    let mut p = 1;
    for _ in 0..exponent {
        p = f.multiply(p, x);
    }
    p
}

// Writes the points of a symbol: the powers of g, the highest first.
pub fn write_points<F: Field>(f: &F, g: u16, points: &mut [u16])
    ensures { Points (operations F.Field f.now) g points.new }
{
    let mut p = 1;
    for x in points.iter_mut() {
        *x = p;
        p = f.multiply(p, g);
    }
    points.reverse();
}
