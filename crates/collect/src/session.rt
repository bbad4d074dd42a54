// The calls of one collector, and what each of them gives.
use crate::lines::Call;
use carrier::collector::Collector;
use carrier::fault::CollectorFault;
use codes::fault::CodeFault;
use codes::interface::Code;
use std::alloc::AllocError;
use std::io;
use texts::spaced::Spaced;

// Why a line has no answer.
#[derive(Drop)]
pub enum Refusal {
    // It is not understood.
    Unknown,
    // The collector declines the call.
    Fault(CollectorFault),
    // The answer is not made, or not printed.
    Output(io::Error),
}

impl From<CollectorFault> for Refusal {
    fn from(fault: CollectorFault) -> Refusal {
        Refusal::Fault(fault)
    }
}

impl From<CodeFault> for Refusal {
    fn from(fault: CodeFault) -> Refusal {
        Refusal::Fault(CollectorFault::from(fault))
    }
}

impl From<io::Error> for Refusal {
    fn from(error: io::Error) -> Refusal {
        Refusal::Output(error)
    }
}

impl From<AllocError> for Refusal {
    fn from(error: AllocError) -> Refusal {
        Refusal::Output(io::Error::from(error))
    }
}

// A collector that answers calls.
#[derive(Drop)]
pub struct Session<'a, C> {
    pub rt: &'a HostRuntime,
    pub collector: Collector<C>,
}

impl<C: Code> Session<'_, C> {
    // Answers one call.
    pub fn answer(&mut self, call: &Call) -> Result<(), Refusal> {
        match call {
            Call::Issue(message) => self.issue(message),
            Call::Deliver(numbers) => self.deliver(numbers),
            Call::Strike(place) => self.strike(usize::from(*place)),
            Call::Read => self.read(),
        }
    }

    // Issues a message's word.
    fn issue(&self, message: &[u16]) -> Result<(), Refusal> {
        let code = self.collector.code();
        // Room for the longest word: an array needs no case for memory that lacks.
        let mut room = [0; 128];
        let word = &mut room[..code.length().min(128)];
        code.issue(message, word)?;
        println!(self.rt; "word{}", Spaced(word))?;
        Ok(())
    }

    // Delivers a strip: its place and then its numbers.
    fn deliver(&mut self, numbers: &[u16]) -> Result<(), Refusal> {
        let [place, strip @ ..] = numbers else {
            return Err(Refusal::Unknown);
        };
        self.collector.deliver(usize::from(*place), strip)?;
        println!(self.rt; "delivered")?;
        Ok(())
    }

    // Strikes a strip.
    fn strike(&mut self, place: usize) -> Result<(), Refusal> {
        self.collector.strike(place)?;
        println!(self.rt; "struck")?;
        Ok(())
    }

    // Reads the sheet, with buffers of the right lengths, and prints its rows.
    fn read(&self) -> Result<(), Refusal> {
        self.collector.fitness()?;
        let heap = self.rt.alloc();
        let code = self.collector.code();
        let k = code.dimension();
        let mut sheet = vec![in heap; 0; self.collector.depth().saturating_mul(k)]?;
        let mut scratch = vec![in heap; 0; code.need()]?;
        let wrong = self.collector.read(&mut sheet, &mut scratch)?;
        println!(self.rt; "sheet wrong {wrong}")?;
        for (i, row) in sheet.chunks(k.max(1)).enumerate() {
            println!(self.rt; "row {i}{}", Spaced(row))?;
        }
        Ok(())
    }
}
