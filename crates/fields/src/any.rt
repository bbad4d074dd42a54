// A field that is chosen as the program runs.
ghost use Rattle.std.specs.Prelude.{◌≡◌};
ghost use Rattle.fields.specs.Any.{arithmetic_of, any-sizes, any-sums, any-products, any-inverses};
ghost use Rattle.fields.specs.declared.any.AnyField.TheVariants.{Prime as Remainders, Bytes};

use crate::field::Field;
use crate::gf256::Gf256;
use crate::prime::Prime;

// One of the fields of this crate.
#[derive(Clone, Copy)]
pub enum AnyField {
    Prime(Prime),
    Bytes(Gf256),
}

impl Field for AnyField {
    ghost arithmetic = { λ f. arithmetic_of f };

    ghost sizes = { λ f. any-sizes f };

    ghost sums = { λ f. any-sums f };

    ghost products = { λ f. any-products f };

    ghost inverses = { λ f. any-inverses f };

    fn order(&self) -> u32 {
        match self {
            AnyField::Prime(field) => field.order(),
            AnyField::Bytes(field) => field.order(),
        }
    }

    fn add(&self, a: u16, b: u16) -> u16 {
        match self {
            AnyField::Prime(field) => field.add(a, b),
            AnyField::Bytes(field) => field.add(a, b),
        }
    }

    fn negate(&self, a: u16) -> u16 {
        match self {
            AnyField::Prime(field) => field.negate(a),
            AnyField::Bytes(field) => field.negate(a),
        }
    }

    fn multiply(&self, a: u16, b: u16) -> u16 {
        match self {
            AnyField::Prime(field) => field.multiply(a, b),
            AnyField::Bytes(field) => field.multiply(a, b),
        }
    }

    fn inverse(&self, a: u16) -> Option<u16> {
        match self {
            AnyField::Prime(field) => field.inverse(a),
            AnyField::Bytes(field) => field.inverse(a),
        }
    }
}

// A prime field is one of the fields.
impl From<Prime> for AnyField {
    ghost from_gives = { λ f r. r ≡ Remainders f };

    fn from(field: Prime) -> AnyField {
        AnyField::Prime(field)
    }
}

// The field of bytes is one of the fields.
impl From<Gf256> for AnyField {
    ghost from_gives = { λ f r. r ≡ Bytes f };

    fn from(field: Gf256) -> AnyField {
        AnyField::Bytes(field)
    }
}
