// Reading the sheet.
ghost use Rattle.std.specs.Prelude.{◌≡◌, ℕ, ◌<◌, ◌≤◌, length, drop, Ok};
ghost use Rattle.carrier.specs.Driven.{Reads};
ghost use Rattle.carrier.specs.Records.{meaning_of, records_of, fitness_of, read_answer, Read};
ghost use Rattle.carrier.specs.Sheets.{Row, Rows};

use super::Collector;
use crate::fault::{CollectorFault, RowFault};
use codes::fault::CodeFault;
use codes::interface::{Code, Issuer};

impl<C: Code> Collector<C> {
    // Writes the sheet, row after row, and answers how many of the kept numbers are wrong; a refusal writes nothing.
    // The rows are decoded into a second sheet, so that a refused row leaves the first as it was; it is a local array, since
    // nothing is allocated.
    pub fn read(&self, sheet: &mut [u16], scratch: &mut [u16]) -> Result<usize, CollectorFault>
        ensures answer { Read C.Issuer C.Code.own self.now sheet.old sheet.new scratch.old scratch.new result }
        ensures run { Reads C.Issuer C.Code.own self.now sheet.old sheet.new scratch.old result }
    {
        self.check_read(sheet.len(), scratch.len())?;
        let mut room = [0; 2048];
        let whole = &mut room[..sheet.len()];
        let wrong = self.decode_rows(whole, scratch)?;
        sheet.copy_from_slice(whole);
        Ok(wrong)
    }

    // The checks of a read with buffers of these lengths.
    fn check_read(&self, asked: usize, lent: usize) -> Result<(), CollectorFault>
        ensures { result ≡ read_answer C.Issuer C.Code.own self.now asked lent }
    {
        self.fitness()?;
        if asked != self.depth * self.code.dimension() {
            return Err(CollectorFault::SheetLength);
        }
        if lent < self.code.need() {
            return Err(CollectorFault::from(CodeFault::Scratch));
        }
        Ok(())
    }

    // All rows, first to last, into a sheet of the right length.
    fn decode_rows(&self, sheet: &mut [u16], scratch: &mut [u16]) -> Result<usize, RowFault>
        requires checked { read_answer C.Issuer C.Code.own self.now (length sheet.old) (length scratch.old) ≡ Ok tt }
        ensures rows { let s = self.now in Rows (meaning_of C.Issuer s) s.depth (records_of C.Issuer s) sheet.new result }
        ensures rest { let n = C.Code.need self.now.code in drop n scratch.new ≡ drop n scratch.old }
    {
        let long = self.code.dimension();
        let mut wrong: usize = 0;
        // The rows are cut by number: of what is written through `chunks_exact_mut` a proof knows nothing afterwards.
        for row in 0..self.depth {
            let start = row * long;
            wrong += self.decode_row(row, &mut sheet[start..start + long], scratch)?;
        }
        Ok(wrong)
    }

    // The message of a row, or the code's fault with the row.
    fn decode_row(
        &self,
        row: usize,
        message: &mut [u16],
        scratch: &mut [u16],
    ) -> Result<usize, RowFault>
        requires fits { fitness_of C.Issuer self.now ≡ Ok tt }
        requires within { row < self.now.depth }
        requires asked { length message.old ≡ (meaning_of C.Issuer self.now).dimension }
        requires lent { C.Code.need self.now.code ≤ length scratch.old }
        ensures answer { let s = self.now in Row (meaning_of C.Issuer s) (records_of C.Issuer s) row message.new result }
        ensures rest { let n = C.Code.need self.now.code in drop n scratch.new ≡ drop n scratch.old }
    {
        let long = self.code.length();
        let (numbers, missing) = self.table.column(row, long);
        self.code
            .decode(&numbers[..long], &missing[..long], message, scratch)
            .map_err(|fault| RowFault { fault, row })
    }
}
