// Writing a sheet as a file.
ghost use Rattle.settings_carrier.specs.Reports.{headed};
ghost use Rattle.settings_carrier.specs.Writings.{Writes};

use crate::report::{Tally, tell};
use file::heading::Heading;
use file::write;

// Writes a sheet's file at the output's start. Answers 0 and counts the file's bytes, or answers the refusal's number.
// The heading's numbers are parameters of their own for callers in C.
#[unsafe(no_mangle)]
pub extern "C" fn carrier_write(
    kind: u8,
    modulus: u16,
    n: u8,
    k: u8,
    depth: u8,
    sheet: &[u16],
    output: &mut [u8],
    tally: &mut Tally,
) -> u32
    ensures { Writes (headed kind modulus n k depth) sheet.now
        output.old output.new tally.new result }
{
    let heading = Heading {
        kind,
        modulus,
        n,
        k,
        depth,
    };
    tell(write(&heading, sheet, output), tally)
}
