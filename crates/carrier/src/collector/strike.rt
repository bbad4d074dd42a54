// Striking a strip.
ghost use Rattle.std.specs.Prelude.{◌≡◌};
ghost use Rattle.carrier.specs.Book.{strike};
ghost use Rattle.carrier.specs.Driven.{Follows};
ghost use Rattle.carrier.specs.Records.{strike_answer, Struck};

use super::Collector;
use crate::fault::CollectorFault;
use codes::interface::{Code, Issuer};

impl<C: Code> Collector<C> {
    // The place now holds nothing, unless the strike is declined.
    pub fn strike(&mut self, place: usize) -> Result<(), CollectorFault>
        ensures answer { result ≡ strike_answer C.Issuer self.old place }
        ensures records { Struck C.Issuer self.old self.new place result }
        ensures run { Follows C.Issuer self.old self.new (strike place) }
    {
        self.check_strike(place)?;
        self.table.clear(place);
        Ok(())
    }

    // The checks of a strike.
    fn check_strike(&self, place: usize) -> Result<(), CollectorFault>
        ensures { result ≡ strike_answer C.Issuer self.now place }
    {
        self.fitness()?;
        if place >= self.code.length() {
            return Err(CollectorFault::Place);
        }
        if !self.table.holds(place) {
            return Err(CollectorFault::Vacant);
        }
        Ok(())
    }
}
