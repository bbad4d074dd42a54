// Decoding one word.
ghost use Rattle.file.specs.Meant.{code_of};
ghost use Rattle.settings_carrier.specs.Decodings.{DecodedBy, Decodes};
ghost use Rattle.settings_carrier.specs.Reports.{headed};

use crate::report::{Tally, tell};
use carrier::fault::CollectorFault;
use codes::interface::Code;
use file::choice::FileCode;
use file::fault::FileFault;
use file::heading::Heading;

// Writes the message within reach of a word of the evaluation code with the points 0 to n - 1. Answers 0 and counts the
// wrong numbers, or answers the refusal's number. The heading's numbers are parameters of their own for callers in C.
#[unsafe(no_mangle)]
pub extern "C" fn carrier_decode(
    kind: u8,
    modulus: u16,
    n: u8,
    k: u8,
    received: &[u16],
    marks: &[u8],
    message: &mut [u16],
    tally: &mut Tally,
) -> u32
    ensures { Decodes (headed kind modulus n k 1) received.now marks.now
        message.old message.new tally.new result }
{
    let heading = Heading {
        kind,
        modulus,
        n,
        k,
        depth: 1,
    };
    // What the decoder of the longest code needs; nothing is allocated.
    let mut scratch = [0; 16899];
    let outcome = decode_by(&heading, received, marks, message, &mut scratch);
    tell(outcome, tally)
}

// Decodes with the code that a heading asks for, and hands its fault on as one of a file.
fn decode_by(
    heading: &Heading,
    received: &[u16],
    marks: &[u8],
    message: &mut [u16],
    scratch: &mut [u16],
) -> Result<usize, FileFault>
    ensures { DecodedBy (code_of heading.now) received.now marks.now
        message.old message.new scratch.old scratch.new result }
{
    let code = FileCode::new(heading)?;
    let wrong = code
        .decode(received, marks, message, scratch)
        .map_err(CollectorFault::from)?;
    Ok(wrong)
}
