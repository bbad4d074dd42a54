use crate::divide::divide;
use crate::fault::{DivideFault, SolveFault};
use crate::polynomial::evaluate;
use crate::solve::solve;
use fields::field::Field;
use fields::gf256::Gf256;
use fields::prime::Prime;
use std::test::Fail;

// Solves two equations in three unknowns, with their coefficients row after row.
fn solution_of<F: Field>(f: &F, coefficients: [u16; 6]) -> Result<[u16; 3], SolveFault> {
    let [a, b, c, d, e, g] = coefficients;
    let mut scratch = [a, b, c, d, e, g, 0, 0, 0];
    let mut solution = [0; 3];
    solve(f, &mut scratch, 2, &mut solution)?;
    Ok(solution)
}

// The quotient and the remainder of a polynomial of four coefficients by one of two.
fn divided<F: Field>(
    f: &F,
    mut dividend: [u16; 4],
    divisor: [u16; 2],
) -> Result<([u16; 4], [u16; 4]), DivideFault> {
    let mut quotient = [9; 4];
    divide(f, &mut dividend, &divisor, &mut quotient)?;
    Ok((quotient, dividend))
}

#[test]
fn solves_with_a_prime(rt: HostRuntime) -> Result<(), Fail> {
    let f = Prime::new(7)?;
    assert_eq!(rt; solution_of(&f, [1, 2, 3, 4, 5, 6]), Ok([1, 5, 1]));
    assert_eq!(rt; solution_of(&f, [0, 1, 2, 3, 0, 1]), Ok([2, 5, 1]));
    assert_eq!(rt; solution_of(&f, [1, 2, 3, 2, 4, 6]), Ok([5, 1, 0]));
    assert_eq!(rt; solution_of(&f, [0, 0, 0, 0, 0, 0]), Ok([1, 0, 0]));
    assert_eq!(rt;
        solution_of(&f, [1, 2, 7, 9, 5, 6]),
        Err(SolveFault::Number(2))
    );
    Ok(())
}

#[test]
fn solves_with_bytes(rt: HostRuntime) {
    let f = Gf256::new();
    assert_eq!(rt; solution_of(&f, [1, 2, 3, 4, 5, 6]), Ok([227, 112, 1]));
    assert_eq!(rt; solution_of(&f, [1, 2, 3, 2, 4, 6]), Ok([2, 1, 0]));
    assert_eq!(rt;
        solution_of(&f, [1, 2, 3, 2, 4, 256]),
        Err(SolveFault::Number(5))
    );
}

#[test]
fn refuses_a_system(rt: HostRuntime) -> Result<(), Fail> {
    let f = Prime::new(7)?;
    assert_eq!(rt;
        solve(&f, &mut [9, 9], 2, &mut [5, 5]),
        Err(SolveFault::Unknowns)
    );
    assert_eq!(rt;
        solve(&f, &mut [9, 9, 9], 1, &mut [5, 5]),
        Err(SolveFault::Scratch)
    );
    assert_eq!(rt; solve(&f, &mut [9, 9, 9, 9], 0, &mut [5, 5, 5]), Ok(()));
    Ok(())
}

#[test]
fn divides(rt: HostRuntime) -> Result<(), Fail> {
    let f = Prime::new(7)?;
    assert_eq!(rt;
        divided(&f, [5, 2, 0, 1], [1, 2]),
        Ok(([2, 5, 4, 0], [3, 0, 0, 0]))
    );
    assert_eq!(rt;
        divided(&f, [5, 2, 0, 1], [3, 0]),
        Ok(([4, 3, 0, 5], [0, 0, 0, 0]))
    );
    assert_eq!(rt;
        divided(&Gf256::new(), [5, 7, 1, 0], [2, 1]),
        Ok(([5, 1, 0, 0], [15, 0, 0, 0]))
    );
    Ok(())
}

#[test]
fn refuses_a_division(rt: HostRuntime) -> Result<(), Fail> {
    let f = Prime::new(7)?;
    assert_eq!(rt;
        divide(&f, &mut [9], &[0], &mut [1, 2]),
        Err(DivideFault::Length)
    );
    assert_eq!(rt;
        divided(&f, [1, 7, 9, 0], [9, 1]),
        Err(DivideFault::Dividend(1))
    );
    assert_eq!(rt;
        divided(&f, [1, 2, 3, 4], [0, 7]),
        Err(DivideFault::Divisor(1))
    );
    assert_eq!(rt; divided(&f, [1, 2, 3, 4], [0, 0]), Err(DivideFault::Zero));
    Ok(())
}

#[test]
fn evaluates(rt: HostRuntime) -> Result<(), Fail> {
    let f = Prime::new(7)?;
    assert_eq!(rt; evaluate(&f, &[3, 0, 2, 1], 0), 3);
    assert_eq!(rt; evaluate(&f, &[3, 0, 2, 1], 5), 3);
    assert_eq!(rt; evaluate(&Gf256::new(), &[5, 7], 2), 11);
    Ok(())
}
