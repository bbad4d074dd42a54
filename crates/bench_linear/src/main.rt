// Times the solving of 128 equations in 129 unknowns, over GF(256) and over modulus 929. The time goes to standard error.

#![tactic(auto)]

use fields::field::Field;
use fields::gf256::Gf256;
use fields::prime::Prime;
use linear::solve::solve;
use std::alloc::{AllocError, Global};
use std::io;
use std::time::Instant;

// How many equations are solved; there is one unknown more.
const COUNT: usize = 128;

// How often, so that the time can be told.
const TURNS: u32 = 20;

// Numbers below the order that look like chance, the same at each run.
fn coefficients(heap: Global, order: u32, count: usize) -> Result<Vec<u16>, AllocError> {
    let mut numbers = Vec::new(heap);
    let mut seed: u32 = 1;
    for _ in 0..count {
        seed = seed.wrapping_mul(1664525).wrapping_add(1013904223);
        let number = (seed >> 16) % order.max(1);
        numbers.push(u16::try_from(number).unwrap_or(0))?;
    }
    Ok(numbers)
}

// How many of the turns end with a solution.
fn solve_often<F: Field>(heap: Global, field: &F) -> Result<u32, AllocError> {
    let mut solved: u32 = 0;
    for _ in 0..TURNS {
        let mut scratch = coefficients(heap, field.order(), (COUNT + 1) * (COUNT + 1))?;
        let mut solution = vec![in heap; 0u16; COUNT + 1]?;
        if solve(field, &mut scratch, COUNT, &mut solution).is_ok() {
            solved = solved.saturating_add(1);
        }
    }
    Ok(solved)
}

// Solves such systems, and prints how long that took.
fn measure<F: Field>(rt: &HostRuntime, name: &str, field: &F) -> io::Result<()> {
    let start = Instant::now(rt)?;
    let solved = solve_often(rt.alloc(), field)?;
    let time = start.elapsed(rt)?.as_micros();
    eprintln!(rt; "{name}: {time} microseconds for {TURNS} systems")?;
    println!(rt; "{name}: {solved} of {TURNS} systems solved")
}

fn main(rt: HostRuntime) -> anyhow::Result<()> {
    measure(&rt, "GF(256)", &Gf256::new())?;
    match Prime::new(929) {
        Ok(field) => measure(&rt, "modulus 929", &field)?,
        Err(_) => println!(rt; "modulus 929: refused")?,
    }
    Ok(())
}
