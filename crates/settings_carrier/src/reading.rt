// Reading the sheet that a file carries.
ghost use Rattle.settings_carrier.specs.Readings.{Fills, Reads};

use crate::report::Report;
use carrier::fault::CollectorFault;
use file::fault::FileFault;
use file::reader::read;
use file::received::{LONGEST, Received, receive};

// Writes the sheet that a file carries at the buffer's start, rows one after another. Answers 0, or the refusal's number.
#[unsafe(no_mangle)]
pub extern "C" fn carrier_read(file: &[u8], sheet: &mut [u16], report: &mut Report) -> u32
    ensures { Reads file.now sheet.old sheet.new report.new result }
{
    match receive_within(file, sheet.len()) {
        Ok(received) => {
            let rows = received.rows();
            sheet[..rows.len()].copy_from_slice(rows);
            *report = Report::found(&received);
            0
        }
        Err(fault) => {
            *report = Report::lost(fault);
            u32::from(fault.number())
        }
    }
}

// Receives a file whose sheet has at most as many numbers as there is room for.
fn receive_within(file: &[u8], room: usize) -> Result<Received, FileFault>
    ensures { Fills file.now room result }
{
    if file.len() <= LONGEST {
        let heading = read(file)?.heading();
        if room < heading.size() {
            return Err(FileFault::Collector(CollectorFault::SheetLength));
        }
    }
    receive(file)
}
