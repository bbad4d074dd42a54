// Delivering a strip.
ghost use Rattle.std.specs.Prelude.{◌≡◌};
ghost use Rattle.carrier.specs.Book.{deliver};
ghost use Rattle.carrier.specs.Driven.{Follows};
ghost use Rattle.carrier.specs.Records.{deliver_answer, Delivered};

use super::Collector;
use crate::fault::CollectorFault;
use codes::checks::check_numbers;
use codes::interface::{Code, Issuer};

impl<C: Code> Collector<C> {
    // The place now holds the strip, unless the delivery is declined.
    pub fn deliver(&mut self, place: usize, strip: &[u16]) -> Result<(), CollectorFault>
        ensures answer { result ≡ deliver_answer C.Issuer self.old place strip.now }
        ensures records { Delivered C.Issuer self.old self.new place strip.now result }
        ensures run { Follows C.Issuer self.old self.new (deliver place strip.now) }
    {
        self.check_deliver(place, strip)?;
        self.table.put(place, strip);
        Ok(())
    }

    // The checks of a delivery.
    fn check_deliver(&self, place: usize, strip: &[u16]) -> Result<(), CollectorFault>
        ensures { result ≡ deliver_answer C.Issuer self.now place strip.now }
    {
        self.fitness()?;
        if place >= self.code.length() {
            return Err(CollectorFault::Place);
        }
        if strip.len() != self.depth {
            return Err(CollectorFault::StripLength);
        }
        check_numbers(self.code.order(), strip)?;
        if self.table.holds(place) {
            return Err(CollectorFault::Taken);
        }
        Ok(())
    }
}
