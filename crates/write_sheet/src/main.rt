// Writes a sheet as a file of strips: reads a heading and the rows from standard input, a line each, and writes the
// file to standard output.
//
//     field 1 11 n 5 k 2 depth 2
//     row 0 3 2
//     row 1 1 0
//
// What is not understood or refused gets one line on standard error, and no file is written.

#![tactic(auto)]

use file::heading::Heading;
use file::write;
use std::alloc::Global;
use std::io;
use std::io::Write;
use std::str::Lines;
use texts::fault::{LineFault, understood};
use texts::words::Words;

// The heading in a line: `field`, the field byte and number, `n`, `k` and `depth`, each with its number.
fn heading_of(line: &str) -> Result<Heading, LineFault> {
    let mut words = Words::of(line);
    words.expect("field")?;
    let kind = words.number()?;
    let modulus = words.number()?;
    words.expect("n")?;
    let n = words.number()?;
    words.expect("k")?;
    let k = words.number()?;
    words.expect("depth")?;
    let depth = words.number()?;
    words.end()?;
    Ok(Heading {
        kind,
        modulus,
        n,
        k,
        depth,
    })
}

// Adds the numbers of a line to the sheet: it begins with `row` and the row's number.
fn add_row(sheet: &mut Vec<u16>, row: usize, line: &str) -> Result<(), LineFault> {
    let mut words = Words::of(line);
    words.expect("row")?;
    if usize::from(words.number::<u16>()?) != row {
        return Err(LineFault::Unknown);
    }
    for word in words {
        sheet.push(word.parse()?)?;
    }
    Ok(())
}

// The rows in the lines, one after another.
fn sheet_of(heap: Global, lines: Lines<'_>) -> Result<Vec<u16>, LineFault> {
    let mut sheet = Vec::new(heap);
    for (row, line) in lines.enumerate() {
        add_row(&mut sheet, row, line)?;
    }
    Ok(sheet)
}

// Writes the file of a sheet to standard output, or why there is none to standard error.
fn write_file(rt: &HostRuntime, heading: &Heading, sheet: &[u16]) -> io::Result<()> {
    // Room for the longest file, 128 strips of 16 numbers and the trailer: an array needs no case for memory that lacks.
    let mut output = [0; 4232];
    match write(heading, sheet, &mut output) {
        Ok(size) => rt.stdout().write_all(&output[..size.min(4232)]),
        Err(fault) => eprintln!(rt; "{fault}"),
    }
}

fn main(rt: HostRuntime) -> anyhow::Result<()> {
    let text = io::read_to_string(rt.alloc(), rt.stdin())?;
    let mut lines = text.as_str().lines();
    let Ok(heading) = heading_of(lines.next().unwrap_or("")) else {
        eprintln!(rt; "the first line has no heading")?;
        return Ok(());
    };
    match understood(sheet_of(rt.alloc(), lines))? {
        Some(sheet) => write_file(&rt, &heading, &sheet)?,
        None => eprintln!(rt; "a line has not its row")?,
    }
    Ok(())
}
