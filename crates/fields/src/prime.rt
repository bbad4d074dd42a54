// The fields of remainders by a prime number.
ghost use Rattle.std.specs.Prelude.{◌≡◌, ℕ, ◌*◌, ◌%◌, ◌<◌, IsTrue};
ghost use Rattle.fields.specs.Arithmetic.{counted, partner};
ghost use Rattle.fields.specs.Numbers.{among};
ghost use Rattle.fields.specs.Primes.{IsPrime, listed, moduli, residues};
ghost use Rattle.fields.specs.Primality.{listed-sizes};
ghost use Rattle.fields.specs.Remainders.{residues-sums, residues-products, residues-inverses};

use crate::fault::FieldFault;
use crate::field::Field;
use crate::numbers::is_among;

// The listed moduli: the primes below 100 and three larger ones.
#[rattlefmt::skip]
const MODULI: [u16; 28] = [
    2, 3, 5, 7, 11, 13, 17, 19, 23, 29, 31, 37, 41, 43, 47, 53, 59, 61, 67, 71, 73, 79, 83, 89, 97, 929, 997, 65521,
];

// Whether a prime field may have the modulus.
fn is_listed(modulus: u16) -> bool
    ensures { result ≡ among modulus moduli }
{
    is_among(modulus, &MODULI)
}

// The numbers below a prime modulus that is listed.
#[derive(Clone, Copy)]
pub struct Prime {
    modulus: u16,
    ghost prime: { IsPrime modulus },
    ghost known: { IsTrue (listed modulus) },
}

impl Prime {
    ghost use Rattle.fields.specs.Made.{Made};

    // The field of remainders by a listed modulus.
    pub fn new(modulus: u16) -> Result<Prime, FieldFault>
        ensures { Made modulus result }
    {
        if is_listed(modulus) {
            Ok(Prime { modulus })
        } else {
            Err(FieldFault::Unlisted)
        }
    }

    // What an argument counts as in this field.
    fn counted(&self, a: u16) -> u32
        ensures { result ≡ counted self.now.modulus a }
    {
        if a < self.modulus { u32::from(a) } else { 0 }
    }
}

impl Field for Prime {
    ghost arithmetic = { λ f. residues f.modulus };

    ghost sizes = { λ f. listed-sizes f.prime f.known };

    ghost sums = { λ f. residues-sums f.prime };

    ghost products = { λ f. residues-products f.prime };

    ghost inverses = { λ f. residues-inverses f.prime };

    fn order(&self) -> u32 {
        u32::from(self.modulus)
    }

    fn add(&self, a: u16, b: u16) -> u16 {
        ((self.counted(a) + self.counted(b)) % self.order()) as u16
    }

    fn negate(&self, a: u16) -> u16 {
        let p = u32::from(self.modulus);
        ((p - self.counted(a)) % p) as u16
    }

    fn multiply(&self, a: u16, b: u16) -> u16 {
        (self.counted(a) * self.counted(b) % self.order()) as u16
    }

    fn inverse(&self, a: u16) -> Option<u16> {
        match self.counted(a) {
            0 => None,
            a => Some(inverse_by(self.modulus, a as u16)),
        }
    }
}

// The inverse of a modulo p, by descent: a × `product` leaves n, and n falls from a to 1 as p is divided by it.
fn inverse_by(p: u16, a: u16) -> u16
    requires prime { IsPrime p }
    requires nonzero { 0 < a }
    requires below { a < p }
    ensures { result ≡ partner p (λ x y. (x * y) % p) a }
{
    let q = u32::from(p);
    let mut n = u32::from(a);
    let mut product: u32 = 1;
    while n > 1 {
        product = product * (q - q / n) % q;
        n = q % n;
    }
    product as u16
}
