// A bench tool for collectors: it takes settings and then calls from standard input, a line each, and prints each call's answer.
//
//     field prime 11            or: field gf256
//     evaluation 2 1 3 9 5 4    (k, then the points), or: repetition 5
//     scaled 1 1 1 1 1          (optional: multipliers)
//     trimmed 0                 (optional: how many numbers are left out)
//     depth 2
//     issue 3 2
//     deliver 0 5 1
//     strike 0
//     read

#![tactic(auto)]

use answers::Bench;
use lines::{Line, parse_line};
use std::alloc::{AllocError, Global};
use std::io;
use texts::fault::understood;

mod answers;
mod lines;
mod session;
mod settings;

// The lines of the text, each understood or not.
fn parse_lines(heap: Global, text: &str) -> Result<Vec<Line>, AllocError> {
    let mut parsed = Vec::new(heap);
    for line in text.lines() {
        parsed.push(understood(parse_line(heap, line))?.unwrap_or(Line::Unknown))?;
    }
    Ok(parsed)
}

fn main(rt: HostRuntime) -> anyhow::Result<()> {
    let text = io::read_to_string(rt.alloc(), rt.stdin())?;
    let lines = parse_lines(rt.alloc(), text.as_str())?;
    Bench::new(&rt, &lines).answer_all()?;
    Ok(())
}
