// The field of 256 elements: polynomials over the two-element field, modulo the polynomial numbered 285.
ghost use Rattle.std.specs.Prelude.{◌≡◌, ℕ, ◌<◌};
ghost use Rattle.fields.specs.Arithmetic.{counted, partner};
ghost use Rattle.fields.specs.Binary.{carryless, remainder, product, bytes, Remains};
ghost use Rattle.fields.specs.Bytes.{bytes-sizes, bytes-sums, bytes-products, bytes-inverses};

use crate::field::Field;

// x⁸ + x⁴ + x³ + x² + 1
const POLYNOMIAL: u16 = 285;

#[derive(Clone, Copy)]
pub struct Gf256(());

impl Gf256 {
    // The field of the polynomials modulo 285.
    pub fn new() -> Gf256
        ensures { ⟦<Gf256 as Field>⟧.arithmetic result ≡ bytes }
    {
        Gf256(())
    }
}

impl Field for Gf256 {
    ghost arithmetic = { λ _. bytes };

    ghost sizes = { λ f. bytes-sizes };

    ghost sums = { λ f. bytes-sums };

    ghost products = { λ f. bytes-products };

    ghost inverses = { λ f. bytes-inverses };

    fn order(&self) -> u32 {
        256
    }

    fn add(&self, a: u16, b: u16) -> u16 {
        u16::from(counted_byte(a) ^ counted_byte(b))
    }

    fn negate(&self, a: u16) -> u16 {
        u16::from(counted_byte(a))
    }

    fn multiply(&self, a: u16, b: u16) -> u16 {
        u16::from(multiply_bytes(counted_byte(a), counted_byte(b)))
    }

    fn inverse(&self, a: u16) -> Option<u16> {
        match counted_byte(a) {
            0 => None,
            a => Some(u16::from(inverse_of(a))),
        }
    }
}

// What an argument counts as: a number of the field is a byte.
fn counted_byte(a: u16) -> u8
    ensures { result ≡ counted 256 a }
{
    u8::try_from(a).unwrap_or(0)
}

// The carry-less product of two polynomials of degree below 8.
fn multiply_carryless(a: u8, b: u8) -> u16
    ensures { result ≡ carryless 8 a b }
{
    let mut sum: u16 = 0;
    for i in 0..8u32 {
        sum ^= u16::from(b >> i) % 2 * (u16::from(a) << i);
    }
    sum
}

// The remainder of a polynomial by one of degree 8.
fn reduce_by(polynomial: u16, x: u16) -> u16
    requires { polynomial < 512 }
    ensures { result ≡ remainder polynomial 8 x }
{
    let mut left = x;
    for i in (0..8u32).rev() {
        left ^= (left >> (8 + i)) % 2 * (polynomial << i);
    }
    left
}

// The remainder of a polynomial by 285: the only number below 256 to which a multiple of 285 is added.
pub fn reduce(x: u16) -> u16
    ensures value { result ≡ remainder 285 8 x }
    ensures remains { Remains x result }
{
    reduce_by(POLYNOMIAL, x)
}

// The product of two numbers of the field.
fn multiply_bytes(a: u8, b: u8) -> u8
    ensures { result ≡ product a b }
{
    reduce_by(POLYNOMIAL, multiply_carryless(a, b)) as u8
}

// The inverse of a number other than 0, which is its 254th power: the product of its 2nd, 4th, 8th .. 128th.
fn inverse_of(a: u8) -> u8
    requires { 0 < a }
    ensures { result ≡ partner 256 product a }
{
    let mut square = a;
    let mut powers: u8 = 1;
    for _ in 0..7u32 {
        square = multiply_bytes(square, square);
        powers = multiply_bytes(powers, square);
    }
    powers
}
