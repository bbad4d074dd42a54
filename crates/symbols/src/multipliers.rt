// The multipliers of a symbol, in any field.
ghost use Rattle.std.specs.Prelude.{◌≡◌, ℕ, ◌<◌, length, None};
ghost use Rattle.linear.specs.Operations.{operations};
ghost use Rattle.symbols.specs.Symbols.{divisor as divided-by, multiplier as multiplied-by, Lacking, Filled, Multiplied};

use crate::fault::SymbolFault;
use crate::powers::power;
use fields::field::Field;

// Writes the multiplier of each point, for check roots from g^b on; where one has none, nothing is written.
pub fn write_multipliers<F: Field>(
    f: &F,
    b: u16,
    points: &[u16],
    multipliers: &mut [u16],
) -> Result<(), SymbolFault>
    ensures { Multiplied (F.Field.arithmetic f.now) b points.now multipliers.old multipliers.new result }
{
    if points.len() != multipliers.len() {
        return Err(SymbolFault::Length);
    }
    if let Some(place) = find_lacking(f, b, points) {
        return Err(SymbolFault::Multiplier(place));
    }
    fill_multipliers(f, b, points, multipliers);
    Ok(())
}

// The first place that has no multiplier.
fn find_lacking<F: Field>(f: &F, b: u16, points: &[u16]) -> Option<usize>
    ensures { Lacking (F.Field.arithmetic f.now) b points.now result }
{
    (0..points.len()).position(|j| multiplier(f, b, points, j).is_none())
}

// Writes each point's multiplier.
fn fill_multipliers<F: Field>(f: &F, b: u16, points: &[u16], multipliers: &mut [u16])
    requires same { length points.now ≡ length multipliers.old }
    requires there { Lacking (F.Field.arithmetic f.now) b points.now None }
    ensures { Filled (F.Field.arithmetic f.now) b points.now multipliers.new }
{
    for (j, there) in multipliers.iter_mut().enumerate() {
        let Some(m) = multiplier(f, b, points, j) else {
            unreachable()
        };
        *there = m;
    }
}

// The multiplier of point j, or `None` where it would be the inverse of 0.
fn multiplier<F: Field>(f: &F, b: u16, points: &[u16], j: usize) -> Option<u16>
    requires { j < length points.now }
    ensures { result ≡ multiplied-by (F.Field.arithmetic f.now) b points.now j }
{
    f.inverse(divisor(f, b, points, j))
}

// What the multiplier of point j is the inverse of.
fn divisor<F: Field>(f: &F, b: u16, points: &[u16], j: usize) -> u16
    requires { j < length points.now }
    ensures { result ≡ divided-by (operations F.Field f.now) b points.now j }
{
    let x = points[j];
    points[..j]
        .iter()
        .chain(&points[j + 1..])
        .fold(power(f, x, b), |product, y| {
            f.multiply(product, f.add(x, f.negate(*y)))
        })
}
