// The value of a polynomial over any field, and what holds of all polynomials.
ghost use Rattle.std.specs.Prelude.{◌≡◌};
ghost use Rattle.linear.specs.Laws.{ConstantAtZero, RootBound, WordsApart};
ghost use Rattle.linear.specs.Operations.{operations};
ghost use Rattle.linear.specs.Polynomials.{value};

use fields::field::Field;

// The value at x of the polynomial with these coefficients, the constant first, by Horner's rule.
// At the point 0 it is the constant.
pub fn evaluate<F: Field>(f: &F, p: &[u16], x: u16) -> u16
    ensures { result ≡ value (operations F.Field f.now) p.now x }
{
    let mut sum = 0;
    for a in p.iter().rev() {
        sum = f.add(*a, f.multiply(x, sum));
    }
    sum
}

// The theorems on polynomials over every field: the value at 0, the bound on roots, and how far apart two words are.
pub fn polynomial_laws()
    ensures constant { ConstantAtZero }
    ensures roots { RootBound }
    ensures apart { WordsApart }
{}
