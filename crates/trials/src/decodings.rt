// Decodings of damaged words.
use codes::fault::CodeFault;
use codes::interface::{Code, Issuer};
use codes::numbers::Upto;
use evaluation::Evaluation;
use fields::gf256::Gf256;
use fields::prime::Prime;
use layers::{Scaled, Trimmed};
use repetition::Repetition;
use std::test::Fail;

#[test]
fn missing_and_wrong_numbers(rt: HostRuntime) -> Result<(), Fail> {
    let eleven = Prime::new(11)?;
    let points = [1u16, 3, 9, 5, 4];
    let code = Evaluation::new(eleven, 5, 2, &points[..]);
    let received = [5u16, 9, 1, 2, 0];
    let mut message = [77u16; 2];
    let mut scratch = [7u16; 49];
    assert_eq!(rt; code.need(), 48);
    assert_eq!(rt;
        code.decode(&received, &[1, 1, 0, 0, 0], &mut message, &mut scratch),
        Err(CodeFault::Reach)
    );
    assert_eq!(rt; &message, &[77, 77]);
    assert_eq!(rt;
        code.decode(&received, &[0, 0, 0, 0, 0], &mut message, &mut scratch),
        Ok(1)
    );
    assert_eq!(rt; &message, &[3, 2]);
    assert_eq!(rt;
        code.decode(&received, &[2, 0, 0, 0, 0], &mut message, &mut scratch),
        Ok(1)
    );
    assert_eq!(rt;
        code.decode(
            &[999, 999, 999, 2, 0],
            &[1, 255, 1, 0, 0],
            &mut message,
            &mut scratch,
        ),
        Ok(0)
    );
    assert_eq!(rt; &message, &[3, 2]);
    assert_eq!(rt;
        code.decode(&received, &[1, 1, 0, 1, 0], &mut message, &mut scratch),
        Ok(0)
    );
    assert_eq!(rt; &message, &[8, 9]);
    assert_eq!(rt; scratch[48], 7);
    Ok(())
}

#[test]
fn the_first_failing_check(rt: HostRuntime) -> Result<(), Fail> {
    let code = Evaluation::new(Prime::new(11)?, 5, 2, Upto::new(5));
    let mut message = [77u16; 2];
    let mut scratch = [7u16; 48];
    assert_eq!(rt;
        code.decode(&[1, 2], &[0; 5], &mut message[0..1], &mut scratch),
        Err(CodeFault::WordLength)
    );
    assert_eq!(rt;
        code.decode(&[1; 5], &[0; 5], &mut message[0..1], &mut scratch[0..9]),
        Err(CodeFault::MessageLength)
    );
    assert_eq!(rt;
        code.decode(&[11; 5], &[0; 5], &mut message, &mut scratch[0..47]),
        Err(CodeFault::Scratch)
    );
    assert_eq!(rt;
        code.decode(
            &[11, 1, 11, 1, 1],
            &[9, 0, 0, 0, 0],
            &mut message,
            &mut scratch,
        ),
        Err(CodeFault::Number(2))
    );
    Ok(())
}

#[test]
fn repetitions_and_layers(rt: HostRuntime) -> Result<(), Fail> {
    let five = Repetition::new(11, 5);
    let mut one = [77u16; 1];
    assert_eq!(rt;
        five.decode(&[4, 4, 7, 4, 7], &[0; 5], &mut one, &mut []),
        Ok(2)
    );
    assert_eq!(rt; one[0], 4);
    assert_eq!(rt;
        five.decode(&[4, 4, 7, 4, 7], &[1, 0, 0, 0, 0], &mut one, &mut []),
        Err(CodeFault::Reach)
    );
    let eleven = Prime::new(11)?;
    let points = [1u16, 3, 9, 5, 4];
    let trimmed = Trimmed::new(Evaluation::new(eleven, 5, 2, &points[..]), 1);
    let mut scratch = [0u16; 48];
    assert_eq!(rt;
        trimmed.decode(&[5, 9, 1, 2, 0], &[0; 5], &mut one, &mut scratch),
        Err(CodeFault::Reach)
    );
    Ok(())
}

#[test]
fn three_layers_over_bytes(rt: HostRuntime) {
    let bytes = Gf256::new();
    let by = [3u16, 5, 7, 9, 11, 13];
    let base = Evaluation::new(bytes, 6, 4, Upto::new(6));
    let pile = Trimmed::new(Scaled::new(bytes, &by[..], Trimmed::new(base, 1)), 1);
    assert_eq!(rt; pile.distance(), 3);
    let mut word = [0u16; 6];
    assert_eq!(rt; pile.issue(&[200, 100], &mut word), Ok(()));
    let mut scratch = [0u16; 63];
    let mut message = [0u16; 2];
    let wrong = word[2] ^ 1;
    word[2] = wrong;
    assert_eq!(rt;
        pile.decode(&word, &[0; 6], &mut message, &mut scratch),
        Ok(1)
    );
    assert_eq!(rt; &message, &[200, 100]);
}
