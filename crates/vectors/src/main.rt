// Runs examples and real symbols against the library, and prints what was compared with what, and whether it agrees.
//
// Standard input has the examples, a line each; `#` begins a comment. `against` says where the expected answers of the
// groups below it come from, and `group` begins a row of the table. A block of lines, up to an empty one, has settings
// and then questions:
//
//     field gf256                     or: field prime 11
//     points 1 3 9 5 4                (with dimension), or: repetition 5
//     dimension 2
//     multipliers 1 1 1 1 1           (optional)
//     trimmed 0                       (optional: how many numbers are left out)
//     file 01 00 05 ..                (the bytes of a file, in hexadecimal)
//
//     modulus 9 = refused 1           or: modulus 7 = accepted
//     product 2 128 = 29
//     powers 2 = 1 2 4 ..             (the powers 0, 1, 2 .. of a number)
//     inverses = - 1 142 ..           (the inverses of 0, 1, 2 .., and `-` where there is none)
//     fitness = accepted              or: fitness = refused 2
//     depth 17 = refused 14           or: depth 16 = accepted
//     word 3 2 = 5 9 10 2 0
//     decode - 9 1 2 0 = wrong 1 message 3 2      or: decode - - 1 2 0 = refused 13
//     kept 4 declined 0 wrong 1       (of the file)
//     row 0 3 2                       (of the file)
//
// A real symbol is a block of three lines, `symbol`, `codewords` and `received`, and a row of its own. What is not
// understood, what lacks its settings, and a row that compares nothing count as differing.

#![tactic(auto)]

use bench::Bench;
use lines::parse_line;
use std::io;
use texts::fault::understood;

mod answers;
mod bench;
mod entries;
mod lines;
mod questions;
mod settings;
mod symbol;
mod tally;

fn main(rt: HostRuntime) -> anyhow::Result<()> {
    let text = io::read_to_string(rt.alloc(), rt.stdin())?;
    let mut bench = Bench::new(&rt);
    bench.begin()?;
    for (i, line) in text.as_str().lines().enumerate() {
        let read = understood(parse_line(rt.alloc(), line))?;
        bench.take(i.saturating_add(1), read)?;
    }
    bench.finish()?;
    Ok(())
}
