// Examples of layers over the repetition code.
use crate::scaled::Scaled;
use crate::trimmed::Trimmed;
use codes::fault::{CodeFault, FitnessFault};
use codes::interface::{Code, Issuer};
use codes::numbers::Upto;
use fields::gf256::Gf256;
use fields::prime::Prime;
use repetition::Repetition;
use std::test::Fail;

// What a code answers to five received numbers, and the number that its message buffer then holds.
fn decoded<C: Code>(
    code: &C,
    received: [u16; 5],
    marks: [u8; 5],
) -> (Result<usize, CodeFault>, u16) {
    let mut message = [9u16];
    let answer = code.decode(&received, &marks, &mut message, &mut []);
    (answer, message[0])
}

#[test]
fn trimming_by_all_numbers_is_refused(rt: HostRuntime) {
    let received = [4u16, 4, 7, 4, 7];
    let same = Trimmed::new(Repetition::new(11, 5), 0);
    assert_eq!(rt; decoded(&same, received, [0; 5]), (Ok(2), 4));
    let none = Trimmed::new(Repetition::new(11, 5), 1);
    assert_eq!(rt; none.fitness(), Err(FitnessFault::Trim));
    assert_eq!(rt;
        decoded(&none, received, [0; 5]),
        (Err(CodeFault::Unfit(FitnessFault::Trim)), 9)
    );
    assert_eq!(rt;
        Trimmed::new(Repetition::new(1, 5), 1).fitness(),
        Err(FitnessFault::Order)
    );
}

#[test]
fn words_are_multiplied_and_divided(rt: HostRuntime) -> Result<(), Fail> {
    let multipliers = [1u16, 2, 3, 4, 5];
    let code = Scaled::new(Prime::new(11)?, &multipliers[..], Repetition::new(11, 5));
    let mut word = [0u16; 5];
    code.issue(&[4], &mut word)?;
    assert_eq!(rt; word, [4, 8, 1, 5, 9]);
    assert_eq!(rt; decoded(&code, [4, 8, 2, 5, 0], [0; 5]), (Ok(2), 4));
    assert_eq!(rt;
        decoded(&code, [4, 8, 2, 5, 0], [0, 2, 0, 0, 0]),
        (Err(CodeFault::Reach), 9)
    );
    assert_eq!(rt;
        decoded(&code, [4, 8, 2, 11, 12], [0, 0, 0, 255, 0]),
        (Err(CodeFault::Number(4)), 9)
    );
    let bytes = Scaled::new(Gf256::new(), &multipliers[..], Repetition::new(256, 5));
    bytes.issue(&[128], &mut word)?;
    assert_eq!(rt; word, [128, 29, 157, 58, 186]);
    assert_eq!(rt; decoded(&bytes, word, [0; 5]), (Ok(0), 128));
    Ok(())
}

#[test]
fn multipliers_are_checked_in_order(rt: HostRuntime) -> Result<(), Fail> {
    let eleven = Prime::new(11)?;
    let multipliers = [1u16, 2, 11, 0, 5];
    assert_eq!(rt;
        Scaled::new(eleven, &multipliers[..], Repetition::new(11, 5)).fitness(),
        Err(FitnessFault::Multiplier(2))
    );
    assert_eq!(rt;
        Scaled::new(eleven, Upto::new(5), Repetition::new(11, 5)).fitness(),
        Err(FitnessFault::Multiplier(0))
    );
    assert_eq!(rt;
        Scaled::new(eleven, Upto::new(5), Repetition::new(13, 5)).fitness(),
        Err(FitnessFault::FieldSize)
    );
    assert_eq!(rt;
        Scaled::new(eleven, Upto::new(4), Repetition::new(13, 5)).fitness(),
        Err(FitnessFault::Length)
    );
    assert_eq!(rt;
        Scaled::new(eleven, Upto::new(4), Repetition::new(1, 5)).fitness(),
        Err(FitnessFault::Order)
    );
    Ok(())
}

#[test]
fn layers_lie_on_layers(rt: HostRuntime) -> Result<(), Fail> {
    let eleven = Prime::new(11)?;
    let inner = [1u16, 2, 3, 4, 5];
    let outer = [5u16, 4, 3, 2, 1];
    let once = Scaled::new(eleven, &inner[..], Repetition::new(11, 5));
    let pile = Scaled::new(eleven, &outer[..], Trimmed::new(once, 0));
    let mut word = [0u16; 5];
    pile.issue(&[4], &mut word)?;
    assert_eq!(rt; word, [9, 10, 3, 10, 9]);
    assert_eq!(rt;
        decoded(&pile, [9, 10, 4, 10, 99], [0, 0, 0, 0, 2]),
        (Ok(1), 4)
    );
    Ok(())
}
