// Numbers as they stand in a line.
ghost use Rattle.std.specs.Prelude.{Some};
ghost use Rattle.texts.specs.Spaced.{spaced};

use std::fmt;

// Numbers that are printed each after a space.
#[derive(Clone, Copy)]
pub struct Spaced<'a>(pub &'a [u16]);

impl fmt::Display for Spaced<'_> {
    ghost output = { λ s. Some (spaced s.0.now) };

    fn fmt<W: fmt::Write>(&self, f: &mut fmt::Formatter<W>) -> fmt::Result {
        for number in self.0 {
            write!(f, " {number}")?;
        }
        Ok(())
    }
}
