// Real symbols: their kinds, and the code of a block.
ghost use Rattle.std.specs.Prelude.{◌≡◌, ℕ, ◌+◌, ◌*◌, nat_le, IfOk};
ghost use Rattle.vectors.specs.Kinds.{KindNamed, arithmetic_of, base, first_root_of};

use fields::any::AnyField;
use fields::fault::FieldFault;
use fields::field::Field;
use fields::gf256::Gf256;
use fields::prime::Prime;
use std::str::FromStr;
use texts::fault::LineFault;

// A kind of symbol.
#[derive(Clone, Copy)]
pub enum Kind {
    // Over GF(256), with the check roots 2^0, 2^1 and so on.
    Qr,
    // Over modulus 929, with the check roots 3^1, 3^2 and so on.
    Pdf417,
}

// A symbol's kind, how many of its codewords are check numbers, and how many of those received are wrong.
#[derive(Clone, Copy)]
pub struct Symbol {
    pub kind: Kind,
    pub checks: u16,
    pub wrong: u16,
}

// The kind that a word names.
impl FromStr for Kind {
    type Err = LineFault;

    ghost from_str_gives = { λ word r. KindNamed word r };

    fn from_str(word: &str) -> Result<Kind, LineFault> {
        match word {
            "qr" => Ok(Kind::Qr),
            "pdf417" => Ok(Kind::Pdf417),
            _ => Err(LineFault::Unknown),
        }
    }
}

impl Kind {
    // The field of the codewords.
    pub fn field(self) -> Result<AnyField, FieldFault>
        ensures { IfOk result (λ f. ⟦<AnyField as Field>⟧.arithmetic f ≡ arithmetic_of self) }
    {
        match self {
            Kind::Qr => Ok(AnyField::from(Gf256::new())),
            Kind::Pdf417 => Ok(AnyField::from(Prime::new(929)?)),
        }
    }

    // The number whose powers are the points and the check roots.
    pub fn base(self) -> u16
        ensures { result ≡ base self }
    {
        match self {
            Kind::Qr => 2,
            Kind::Pdf417 => 3,
        }
    }

    // The exponent of the first check root.
    pub fn first_root(self) -> u16
        ensures { result ≡ first_root_of self }
    {
        match self {
            Kind::Qr => 0,
            Kind::Pdf417 => 1,
        }
    }
}

impl Symbol {
    // Whether so many missing numbers leave the symbol within reach.
    pub fn is_within_reach(self, missing: usize) -> bool
        ensures { result ≡ nat_le (2 * self.wrong + missing) self.checks }
    {
        let checks = usize::from(self.checks);
        let wrong = usize::from(self.wrong);
        missing <= checks && 2 * wrong <= checks - missing
    }
}
