// Why a system of equations is not solved, and why a polynomial is not divided.

#[derive(Clone, Copy, PartialEq, Eq, Debug)]
pub enum SolveFault {
    // There are not more unknowns than equations.
    Unknowns,
    // The scratch has no room for the rows and one more.
    Scratch,
    // The coefficient at this place of the scratch is the first that is not below the field's order.
    Number(usize),
}

#[derive(Clone, Copy, PartialEq, Eq, Debug)]
pub enum DivideFault {
    // The quotient's buffer is not as long as the dividend.
    Length,
    // The number at this place of the dividend is its first that is not below the field's order.
    Dividend(usize),
    // The number at this place of the divisor is its first that is not below the field's order.
    Divisor(usize),
    // The divisor is all zeros.
    Zero,
}
