// Points and multipliers of small blocks, and the refusals.
use crate::fault::SymbolFault;
use crate::{power, write_multipliers, write_points};
use fields::gf256::Gf256;
use fields::prime::Prime;
use std::test::Fail;

#[test]
fn three_codewords_modulo_929(rt: HostRuntime) -> Result<(), Fail> {
    let field = Prime::new(929)?;
    let mut points = [0u16; 3];
    let mut multipliers = [0u16; 3];
    write_points(&field, 3, &mut points);
    assert_eq!(rt; &points, &[9, 3, 1]);
    // 1 / (9 × 6 × 8), 1 / (3 × -6 × 2) and 1 / (1 × -8 × -2)
    assert_eq!(rt;
        write_multipliers(&field, 1, &points, &mut multipliers),
        Ok(())
    );
    assert_eq!(rt; &multipliers, &[686, 129, 871]);
    Ok(())
}

#[test]
fn powers_in_bytes(rt: HostRuntime) {
    assert_eq!(rt; power(&Gf256::new(), 2, 8), 29);
    assert_eq!(rt; power(&Gf256::new(), 0, 0), 1);
}

#[test]
fn a_refusal_writes_nothing(rt: HostRuntime) {
    let field = Gf256::new();
    let mut multipliers = [7u16; 3];
    assert_eq!(rt;
        write_multipliers(&field, 0, &[4, 2], &mut multipliers),
        Err(SymbolFault::Length)
    );
    assert_eq!(rt;
        write_multipliers(&field, 0, &[4, 2, 2], &mut multipliers),
        Err(SymbolFault::Multiplier(1))
    );
    assert_eq!(rt;
        write_multipliers(&field, 1, &[4, 2, 0], &mut multipliers),
        Err(SymbolFault::Multiplier(2))
    );
    assert_eq!(rt; &multipliers, &[7, 7, 7]);
}
