// Homogeneous linear equations over any field, by elimination.
ghost use Rattle.std.specs.Prelude.{◌≡◌, ℕ, ◌+◌, ◌*◌, ◌<◌, length, drop};
ghost use Rattle.fields.specs.Numbers.{Below, Zeros};
ghost use Rattle.linear.specs.Equations.{height, Rows, Grid, Pivot, PivotPlaced, Cleared, Solves, Solution, Solved, solve_check};
ghost use Rattle.linear.specs.Operations.{operations};

use crate::fault::SolveFault;
use crate::rows::{multiply_rows, scale_row, subtract_row};
use fields::field::Field;
use fields::numbers::find_stray;

// Writes into `solution` numbers, not all of them 0, that solve `count` homogeneous equations in as many unknowns as it is long.
// The coefficients stand in the scratch row after row, and one spare row follows them; what these rows hold afterwards is free.
pub fn solve<F: Field>(
    f: &F,
    scratch: &mut [u16],
    count: usize,
    solution: &mut [u16],
) -> Result<(), SolveFault>
    ensures answer { result ≡ solve_check (operations F.Field f.now).order scratch.old count (length solution.old) }
    ensures solved { Solved (operations F.Field f.now) count scratch.old scratch.new solution.old solution.new result }
    ensures rest { drop ((count + 1) * length solution.old) scratch.new ≡ drop ((count + 1) * length solution.old) scratch.old }
{
    let w = solution.len();
    check_system(f.order(), scratch, count, w)?;
    solve_rows(f, &mut scratch[0..(count + 1) * w], count, solution);
    Ok(())
}

// The checks of a system of `count` equations in `w` unknowns.
fn check_system(order: u32, scratch: &[u16], count: usize, w: usize) -> Result<(), SolveFault>
    ensures { result ≡ solve_check order scratch.now count w }
{
    if w <= count {
        return Err(SolveFault::Unknowns);
    }
    let need = (count + 1).checked_mul(w).ok_or(SolveFault::Scratch)?;
    if scratch.len() < need {
        return Err(SolveFault::Scratch);
    }
    if let Some(place) = find_stray(order, &scratch[0..count * w]) {
        return Err(SolveFault::Number(place));
    }
    Ok(())
}

// Solves the equations in `room`, which holds their rows and the spare row.
fn solve_rows<F: Field>(f: &F, room: &mut [u16], count: usize, solution: &mut [u16])
    requires unknowns { count < length solution.old }
    requires size { (count + 1) * length solution.old ≡ length room.old }
    requires grid { Grid (operations F.Field f.now) (length solution.old) count room.old }
    ensures { Solution (operations F.Field f.now) (length solution.old) count room.old solution.new }
{
    let (rows, spare) = room.split_at_mut(count * solution.len());
    eliminate(f, rows, spare, 0, solution);
}

// Solves the rows from column `c` on, where the columns before it are not looked at: the numbers of `v` from `c` on are a solution, not all of them 0.
// A column of zeros is solved by a 1 there and zeros after it. Otherwise the first row, scaled to a 1 in the column, clears the
// column in the rows below it, which are solved from the next column on, and the first row then gives the number at `c`.
fn eliminate<F: Field>(f: &F, rows: &mut [u16], spare: &mut [u16], c: usize, v: &mut [u16])
    requires column { let w = length v.old in height w rows.old + c < w }
    requires room { length spare.old ≡ length v.old }
    requires rows { Rows (operations F.Field f.now) (length v.old) rows.old }
    ensures solves { let w = length v.old in Solves (operations F.Field f.now) w c (height w rows.old) rows.old (drop c v.new) }
    ensures nonzero { Zeros (drop c v.new) → ⊥ }
    ensures below { Below (operations F.Field f.now).order (drop c v.new) }
{
    if !place_pivot(f, rows, spare, c) {
        v.fill(0);
        v[c] = 1;
        return;
    }
    let (first, rest) = rows.split_at_mut(v.len());
    let pivot = first[c];
    let Some(inverse) = f.inverse(pivot) else {
        unreachable()
    };
    scale_row(f, first, inverse);
    clear_column(f, rest, c, first);
    eliminate(f, rest, spare, c + 1, v);
    v[c] = f.negate(multiply_rows(f, &first[c + 1..], &v[c + 1..]));
}

// Gives the first row a number other than 0 in column `c`, if any row has one, and keeps the solutions. A row is as long as `spare`.
fn place_pivot<F: Field>(f: &F, rows: &mut [u16], spare: &mut [u16], c: usize) -> bool
    requires column { c < length spare.old }
    requires rows { Rows (operations F.Field f.now) (length spare.old) rows.old }
    ensures { PivotPlaced (operations F.Field f.now) (length spare.old) c rows.old rows.new result }
{
    let w = spare.len();
    let Some(p) = find_pivot(rows, w, c) else {
        return false;
    };
    if p > 0 {
        spare.copy_from_slice(&rows[p * w..p * w + w]);
        subtract_row(f, &mut rows[0..w], 1, spare);
    }
    true
}

// The first of the rows of `w` numbers with a number other than 0 in column `c`, by its number among them.
fn find_pivot(rows: &[u16], w: usize, c: usize) -> Option<usize>
    requires whole { height w rows.now * w ≡ length rows.now }
    requires column { c < w }
    ensures { Pivot w c (height w rows.now) rows.now result }
{
    (0..rows.len() / w).find(|k| rows[k * w + c] != 0)
}

// Subtracts from each row the multiple of the pivot row that makes its number in column `c` 0, where the pivot row has a 1.
fn clear_column<F: Field>(f: &F, rows: &mut [u16], c: usize, pivot: &[u16])
    requires whole { let w = length pivot.now in height w rows.old * w ≡ length rows.old }
    requires column { c < length pivot.now }
    ensures { let w = length pivot.now in Cleared (operations F.Field f.now) w c (height w rows.old) rows.old rows.new pivot.now }
{
    let w = pivot.len();
    // A row in the middle of the scratch is lent; a proof knows nothing of what is written through `chunks_exact_mut`.
    for k in 0..rows.len() / w {
        let from = k * w;
        let by = rows[from + c];
        subtract_row(f, &mut rows[from..from + w], by, pivot);
    }
}
