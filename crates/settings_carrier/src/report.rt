// What a call reports beside its number.
ghost use Rattle.std.specs.Prelude.{◌≡◌};
ghost use Rattle.settings_carrier.specs.Reports.{found, lost, Tells};

use file::fault::FileFault;
use file::received::Received;

// How a file was received: its heading and how its strips fared, or the place and the row of the refusal. What is not
// reported is 0.
#[repr(C)]
#[derive(Clone, Copy, PartialEq, Eq, Debug, Default)]
pub struct Report {
    // 1 for a prime field, 2 for GF(256), as C takes it.
    pub kind: u8,
    // How many numbers a word has.
    pub n: u8,
    // How many numbers a message has.
    pub k: u8,
    // How many rows the sheet has.
    pub depth: u8,
    // The field's number: the modulus, or 285.
    pub modulus: u16,
    // How many places hold a strip.
    pub kept: usize,
    // How many strips were declined.
    pub declined: usize,
    // How many of the numbers kept are wrong.
    pub wrong: usize,
    // The place of a refusal.
    pub place: usize,
    // The row of a refusal.
    pub row: usize,
}

// What a call counted, or the place of its refusal. What is not reported is 0.
#[repr(C)]
#[derive(Clone, Copy, PartialEq, Eq, Debug, Default)]
pub struct Tally {
    // The length of the file written, or how many numbers of the word are wrong.
    pub count: usize,
    // The place of a refusal.
    pub place: usize,
}

impl Report {
    // The heading of a file that was received, and how its strips fared.
    pub fn found(received: &Received) -> Report
        ensures { result ≡ found received.now }
    {
        let heading = received.heading;
        Report {
            kind: heading.kind,
            n: heading.n,
            k: heading.k,
            depth: heading.depth,
            modulus: heading.modulus,
            kept: received.kept,
            declined: received.declined,
            wrong: received.wrong,
            ..Report::default()
        }
    }

    // The place and the row of a refusal.
    pub fn lost(fault: FileFault) -> Report
        ensures { result ≡ lost fault }
    {
        Report {
            place: fault.place(),
            row: fault.row(),
            ..Report::default()
        }
    }
}

// Tells a count or a refusal: its number is answered.
pub fn tell(outcome: Result<usize, FileFault>, tally: &mut Tally) -> u32
    ensures { Tells outcome tally.new result }
{
    match outcome {
        Ok(count) => {
            *tally = Tally {
                count,
                ..Tally::default()
            };
            0
        }
        Err(fault) => {
            *tally = Tally {
                place: fault.place(),
                ..Tally::default()
            };
            u32::from(fault.number())
        }
    }
}
