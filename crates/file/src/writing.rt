// Writing a sheet as a file.
ghost use Rattle.std.specs.Prelude.{◌≡◌, ℕ, ◌+◌, ◌*◌, ◌<◌, ◌≤◌, length, Ok, slice_index};
ghost use Rattle.codes.specs.Checks.{number_check};
ghost use Rattle.carrier.specs.Checks.{fit_check};
ghost use Rattle.file.specs.Form.{trailer, strip_bytes, strips_bytes};
ghost use Rattle.file.specs.Meant.{code_of};
ghost use Rattle.file.specs.Writes.{strip_by, strips_by, entry_by, strips_of_sheet, write_check, WrittenWith, WrittenBy};

use crate::choice::FileCode;
use crate::fault::FileFault;
use crate::heading::Heading;
use carrier::fault::CollectorFault;
use carrier::fitness::check_fitness;
use codes::checks::check_numbers;
use codes::interface::Issuer;

// The words of a sheet's rows, one after another.
#[derive(Clone, Copy)]
struct Words<'a> {
    numbers: &'a [u16],
    long: usize,
    depth: usize,
    ghost rows: { length numbers.now ≡ depth * long },
    ghost few: { (long ≤ 128) × (depth ≤ 16) },
}

// Writes all strips of a sheet, first to last, and the trailer, at the output's start, and answers the file's length.
pub fn write(heading: &Heading, sheet: &[u16], output: &mut [u8]) -> Result<usize, FileFault>
    ensures { let h = heading.now in WrittenBy (code_of h) h sheet.now output.old output.new result }
{
    write_with(&FileCode::new(heading)?, heading, sheet, output)
}

// The same, with the words of a code.
fn write_with<C: Issuer>(
    code: &C,
    heading: &Heading,
    sheet: &[u16],
    output: &mut [u8],
) -> Result<usize, FileFault>
    ensures { WrittenWith (C.Issuer.meaning code.now) heading.now sheet.now output.old output.new result }
{
    let depth = usize::from(heading.depth);
    check_write(code, depth, sheet, output.len())?;
    let size = code.length() * heading.width();
    put_sheet(code, depth, sheet, &mut output[..size]);
    put_trailer(heading, size as u16, &mut output[size..size + 8]);
    Ok(size + 8)
}

// The checks of writing; `room` is the length of the output.
fn check_write<C: Issuer>(
    code: &C,
    depth: usize,
    sheet: &[u16],
    room: usize,
) -> Result<(), FileFault>
    ensures { result ≡ write_check (C.Issuer.meaning code.now) depth sheet.now room }
{
    check_fitness(code, depth)?;
    if sheet.len() != depth * code.dimension() {
        return Err(FileFault::Collector(CollectorFault::SheetLength));
    }
    check_numbers(code.order(), sheet).map_err(CollectorFault::from)?;
    if room < code.length() * (1 + 2 * depth) + 8 {
        return Err(FileFault::Output);
    }
    Ok(())
}

// All strips of a sheet, one after another.
fn put_sheet<C: Issuer>(code: &C, depth: usize, sheet: &[u16], output: &mut [u8])
    requires fits { fit_check (C.Issuer.meaning code.now) depth ≡ Ok tt }
    requires sheet { length sheet.now ≡ depth * (C.Issuer.meaning code.now).dimension }
    requires below { number_check (C.Issuer.meaning code.now).order 0 sheet.now ≡ Ok tt }
    requires output { length output.old ≡ (C.Issuer.meaning code.now).long * (1 + 2 * depth) }
    ensures { output.new ≡ strips_bytes (strips_of_sheet (C.Issuer.meaning code.now) depth sheet.now) }
{
    let n = code.length();
    // The words of the largest sheet; nothing is allocated.
    let mut room = [0; 2048];
    let words = &mut room[..depth * n];
    issue_rows(code, depth, sheet, words);
    let words = Words {
        numbers: words,
        long: n,
        depth,
    };
    words.put_strips(output);
}

// The words of the rows, one after another.
fn issue_rows<C: Issuer>(code: &C, depth: usize, sheet: &[u16], words: &mut [u16])
    requires fits { fit_check (C.Issuer.meaning code.now) depth ≡ Ok tt }
    requires sheet { length sheet.now ≡ depth * (C.Issuer.meaning code.now).dimension }
    requires below { number_check (C.Issuer.meaning code.now).order 0 sheet.now ≡ Ok tt }
    requires words { length words.old ≡ depth * (C.Issuer.meaning code.now).long }
    ensures { let M = C.Issuer.meaning code.now in ((r j : ℕ) → r < depth → j < M.long → slice_index words.new (r * M.long + j) ≡ entry_by M sheet.now r j) }
{
    let n = code.length();
    let k = code.dimension();
    // The rows are cut by number: of what is written through `chunks_exact_mut` a proof knows nothing afterwards.
    for row in 0..depth {
        let message = &sheet[row * k..row * k + k];
        let _ = code.issue(message, &mut words[row * n..row * n + n]);
    }
}

impl Words<'_> {
    // The strips of all places, one after another.
    fn put_strips(&self, output: &mut [u8])
        requires output { length output.old ≡ self.now.long * (1 + 2 * self.now.depth) }
        ensures { let x = self.now in output.new ≡ strips_bytes (strips_by (λ r j. slice_index x.numbers.now (r * x.long + j)) x.depth x.long) }
    {
        let width = 1 + 2 * self.depth;
        // The strips are cut by number: of what is written through `chunks_exact_mut` a proof knows nothing afterwards.
        for place in 0..self.long {
            let start = place * width;
            self.put_strip(place, &mut output[start..start + width]);
        }
    }

    // One strip: its place, and the number of each row.
    fn put_strip(&self, place: usize, output: &mut [u8])
        requires within { place < self.now.long }
        requires output { length output.old ≡ 1 + 2 * self.now.depth }
        ensures { let x = self.now in output.new ≡ strip_bytes (strip_by (λ r j. slice_index x.numbers.now (r * x.long + j)) x.depth place) }
    {
        output[0] = place as u8;
        // The numbers are written by row: of what is written through `chunks_exact_mut` a proof knows nothing afterwards.
        for row in 0..self.depth {
            let [high, low] = self.numbers[row * self.long + place].to_be_bytes();
            output[1 + 2 * row] = high;
            output[2 + 2 * row] = low;
        }
    }
}

// The last eight bytes.
fn put_trailer(heading: &Heading, back: u16, output: &mut [u8])
    requires { length output.old ≡ 8 }
    ensures { output.new ≡ trailer heading.now back }
{
    let [modulus_high, modulus_low] = heading.modulus.to_be_bytes();
    let [back_high, back_low] = back.to_be_bytes();
    output.copy_from_slice(&[
        heading.kind,
        modulus_high,
        modulus_low,
        heading.n,
        heading.k,
        heading.depth,
        back_high,
        back_low,
    ]);
}
