// A collector: a code, a depth, and the strips that came.
ghost use Rattle.std.specs.Prelude.{◌≡◌, [], replicate, None};
ghost use Rattle.carrier.specs.Driven.{Holds};
ghost use Rattle.carrier.specs.Places.{held_places};
ghost use Rattle.carrier.specs.Records.{records_of, fitness_of};

use crate::fault::CollectorFault;
use crate::fitness::check_fitness;
use crate::table::Table;
use codes::interface::{Code, Issuer};

mod deliver;
mod read;
mod strike;

#[derive(Drop)]
pub struct Collector<C> {
    code: C,
    depth: usize,
    table: Table,
}

impl<C: Code> Collector<C> {
    // A collector that holds nothing: no calls have led to it.
    pub fn new(code: C, depth: usize) -> Collector<C>
        ensures code { result.code ≡ code }
        ensures depth { result.depth ≡ depth }
        ensures empty { result.table.strips ≡ replicate 128 None }
        ensures run { Holds C.Issuer result [] }
    {
        Collector {
            code,
            depth,
            table: Table::new(),
        }
    }

    // Whether the code and the depth are fit, and if not, why.
    pub fn fitness(&self) -> Result<(), CollectorFault>
        ensures { result ≡ fitness_of C.Issuer self.now }
    {
        check_fitness(&self.code, self.depth)
    }

    // The code.
    pub fn code(&self) -> &C
        ensures { result.now ≡ self.now.code }
    {
        &self.code
    }

    // The depth: how many rows a sheet has.
    pub fn depth(&self) -> usize
        ensures { result ≡ self.now.depth }
    {
        self.depth
    }

    // How many places hold a strip.
    pub fn kept(&self) -> usize
        ensures { result ≡ held_places (records_of C.Issuer self.now) }
    {
        self.table.held(self.code.length().min(128))
    }
}
