// Division of polynomials over any field, with a remainder.
ghost use Rattle.std.specs.Prelude.{◌≡◌, length};
ghost use Rattle.fields.specs.Numbers.{Below};
ghost use Rattle.linear.specs.Division.{Highest, Leads, Divided, Answered, numbers_check, divide_check};
ghost use Rattle.linear.specs.Operations.{operations};

use crate::fault::DivideFault;
use crate::rows::subtract_row;
use fields::field::Field;
use fields::numbers::find_stray;

// Divides one polynomial by another, both with the constant first: the dividend's buffer is left with the remainder, and the
// quotient's, which is as long, gets the quotient.
pub fn divide<F: Field>(
    f: &F,
    dividend: &mut [u16],
    divisor: &[u16],
    quotient: &mut [u16],
) -> Result<(), DivideFault>
    ensures answer { result ≡ divide_check (operations F.Field f.now).order dividend.old divisor.now (length quotient.old) }
    ensures divided { Answered (operations F.Field f.now) dividend.old dividend.new divisor.now quotient.old quotient.new result }
{
    check_division(f.order(), dividend, divisor, quotient.len())?;
    let Some(lead) = find_lead(divisor) else {
        return Err(DivideFault::Zero);
    };
    divide_by_lead(f, dividend, divisor, lead, quotient);
    Ok(())
}

// The checks of a division, but for a divisor of zeros; `room` is the length of the quotient's buffer.
fn check_division(
    order: u32,
    dividend: &[u16],
    divisor: &[u16],
    room: usize,
) -> Result<(), DivideFault>
    ensures { result ≡ numbers_check order dividend.now divisor.now room }
{
    if room != dividend.len() {
        return Err(DivideFault::Length);
    }
    if let Some(place) = find_stray(order, dividend) {
        return Err(DivideFault::Dividend(place));
    }
    if let Some(place) = find_stray(order, divisor) {
        return Err(DivideFault::Divisor(place));
    }
    Ok(())
}

// The place of the highest number other than 0.
fn find_lead(numbers: &[u16]) -> Option<usize>
    ensures { Highest numbers.now result }
{
    numbers.iter().rposition(|x| *x != 0)
}

// Long division by a divisor whose highest number other than 0 stands at `lead`: from the highest place of the quotient down,
// the multiple of the divisor that makes the dividend's highest number 0 is subtracted.
fn divide_by_lead<F: Field>(
    f: &F,
    dividend: &mut [u16],
    divisor: &[u16],
    lead: usize,
    quotient: &mut [u16],
)
    requires same { length quotient.old ≡ length dividend.old }
    requires numbers { Below (operations F.Field f.now).order dividend.old }
    requires leads { Leads (operations F.Field f.now).order lead divisor.now }
    ensures { Divided (operations F.Field f.now) dividend.old divisor.now quotient.new dividend.new }
{
    let Some(inverse) = f.inverse(divisor[lead]) else {
        unreachable()
    };
    quotient.fill(0);
    // By index: the parts of the dividend overlap, and no iterator lends such parts one after another.
    for i in (0..dividend.len().saturating_sub(lead)).rev() {
        let by = f.multiply(dividend[i + lead], inverse);
        quotient[i] = by;
        subtract_row(f, &mut dividend[i..i + lead + 1], by, &divisor[0..lead + 1]);
    }
}
