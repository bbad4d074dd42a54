// The calls of a run, each with the buffers that it brings and a slot for its answer.
use crate::fault::CollectorFault;

#[derive(Drop)]
pub enum Call {
    Deliver {
        place: usize,
        strip: Vec<u16>,
        answer: Option<Result<(), CollectorFault>>,
    },
    Strike {
        place: usize,
        answer: Option<Result<(), CollectorFault>>,
    },
    Read {
        sheet: Vec<u16>,
        scratch: Vec<u16>,
        answer: Option<Result<usize, CollectorFault>>,
    },
}
