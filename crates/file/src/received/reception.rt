// Receiving a file: its strips are delivered in order to a new collector, which reads the sheet.
ghost use Rattle.std.specs.Prelude.{◌≡◌};
ghost use Rattle.file.specs.Meant.{code_of};
ghost use Rattle.file.specs.Reads.{strips_of};
ghost use Rattle.file.specs.Receipts.{CollectedBy, Receives};

use super::Received;
use crate::choice::FileCode;
use crate::fault::FileFault;
use crate::reader::{Reader, read};
use crate::source::{Outcome, StripSource, collect};

// How many bytes a file may have that is received whole.
pub const LONGEST: usize = 65535;

// The sheet that the strips of a file of at most 65,535 bytes carry.
pub fn receive(file: &[u8]) -> Result<Received, FileFault>
    ensures { Receives file.now result }
{
    if file.len() > LONGEST {
        return Err(FileFault::TooShort);
    }
    let reader = read(file)?;
    let heading = reader.heading();
    let size = heading.size();
    // The largest sheet, and what the decoder of the longest code needs; nothing is allocated.
    let mut sheet = [0; 2048];
    let mut scratch = [0; 16899];
    let outcome = collect_from(&reader, &mut sheet[..size], &mut scratch)?;
    let kept = outcome.kept;
    let declined = outcome.declined;
    let wrong = outcome.wrong?;
    Ok(Received {
        heading,
        kept,
        declined,
        wrong,
        sheet,
    })
}

// A new collector of the code that the reader's heading asks for, and what it makes of the strips.
fn collect_from(
    reader: &Reader<'_>,
    sheet: &mut [u16],
    scratch: &mut [u16],
) -> Result<Outcome, FileFault>
    ensures { let x = reader.now in CollectedBy (code_of x.heading) x.heading.depth (strips_of x) sheet.old sheet.new scratch.old scratch.new result }
{
    let heading = reader.heading();
    let depth = usize::from(heading.depth);
    // Which code it is gets asked once, here: where a collector of a `FileCode` asked it at each strip, a file of many strips
    // took half as long again.
    match FileCode::new(&heading)? {
        FileCode::Remainders(code) => Ok(collect(code, depth, reader, sheet, scratch)),
        FileCode::Bytes(code) => Ok(collect(code, depth, reader, sheet, scratch)),
    }
}
