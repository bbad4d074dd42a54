// Worked examples of both fields.
use crate::fault::FieldFault;
use crate::field::Field;
use crate::gf256::{Gf256, reduce};
use crate::prime::Prime;
use std::test::Fail;

// The fault of a modulus, if it has one.
fn fault_of(modulus: u16) -> Option<FieldFault> {
    match Prime::new(modulus) {
        Ok(_) => None,
        Err(fault) => Some(fault),
    }
}

#[test]
fn listed_moduli_are_taken(rt: HostRuntime) -> Result<(), Fail> {
    assert!(rt; fault_of(2).is_none());
    assert!(rt; fault_of(97).is_none());
    assert!(rt; fault_of(929).is_none());
    assert!(rt; fault_of(997).is_none());
    assert!(rt; fault_of(65521).is_none());
    assert_eq!(rt; Prime::new(65521)?.order(), 65521);
    Ok(())
}

#[test]
fn other_moduli_are_refused(rt: HostRuntime) {
    assert_eq!(rt; fault_of(0), Some(FieldFault::Unlisted));
    assert_eq!(rt; fault_of(1), Some(FieldFault::Unlisted));
    assert_eq!(rt; fault_of(9), Some(FieldFault::Unlisted));
    assert_eq!(rt; fault_of(91), Some(FieldFault::Unlisted));
    assert_eq!(rt; fault_of(101), Some(FieldFault::Unlisted));
    assert_eq!(rt; FieldFault::Unlisted.number(), 1);
}

#[test]
fn remainders_by_seven(rt: HostRuntime) -> Result<(), Fail> {
    let seven = Prime::new(7)?;
    assert_eq!(rt; seven.add(5, 4), 2);
    assert_eq!(rt; seven.negate(3), 4);
    assert_eq!(rt; seven.negate(0), 0);
    assert_eq!(rt; seven.multiply(5, 4), 6);
    assert_eq!(rt; seven.inverse(3), Some(5));
    assert_eq!(rt; seven.inverse(0), None);
    Ok(())
}

#[test]
fn what_is_not_below_seven_counts_as_zero(rt: HostRuntime) -> Result<(), Fail> {
    let seven = Prime::new(7)?;
    assert_eq!(rt; seven.add(9, 1), 1);
    assert_eq!(rt; seven.multiply(9, 3), 0);
    assert_eq!(rt; seven.negate(9), 0);
    assert_eq!(rt; seven.inverse(9), None);
    Ok(())
}

#[test]
fn bytes(rt: HostRuntime) {
    let bytes = Gf256::new();
    assert_eq!(rt; bytes.order(), 256);
    assert_eq!(rt; bytes.add(6, 3), 5);
    assert_eq!(rt; bytes.negate(6), 6);
    assert_eq!(rt; bytes.multiply(2, 128), 29);
    assert_eq!(rt; bytes.multiply(3, 7), 9);
    assert_eq!(rt; bytes.inverse(2), Some(142));
    assert_eq!(rt; bytes.inverse(0), None);
    assert_eq!(rt; reduce(256), 29);
}

#[test]
fn what_is_not_below_256_counts_as_zero(rt: HostRuntime) {
    let bytes = Gf256::new();
    assert_eq!(rt; bytes.multiply(258, 3), 0);
    assert_eq!(rt; bytes.add(300, 5), 5);
    assert_eq!(rt; bytes.inverse(258), None);
}
