// Words, and what fitness says of the codes.
use codes::fault::{CodeFault, FitnessFault};
use codes::interface::{Code, Issuer};
use codes::numbers::Upto;
use evaluation::Evaluation;
use fields::gf256::Gf256;
use fields::prime::Prime;
use layers::Scaled;
use std::test::Fail;

#[test]
fn words_of_polynomials(rt: HostRuntime) -> Result<(), Fail> {
    let seven = Prime::new(7)?;
    let mut word = [9u16; 6];
    let one = [1u16, 2, 3, 4, 5, 6];
    assert_eq!(rt;
        Evaluation::new(seven, 6, 4, &one[..]).issue(&[3, 0, 2, 1], &mut word),
        Ok(())
    );
    assert_eq!(rt; &word, &[6, 5, 6, 1, 3, 4]);
    let other = [1u16, 3, 2, 6, 4, 5];
    assert_eq!(rt;
        Evaluation::new(seven, 6, 4, &other[..]).issue(&[3, 0, 2, 1], &mut word),
        Ok(())
    );
    assert_eq!(rt; &word, &[6, 6, 5, 4, 1, 3]);
    let scaled = Scaled::new(seven, &one[..], Evaluation::new(seven, 6, 4, &one[..]));
    assert_eq!(rt; scaled.issue(&[3, 0, 2, 1], &mut word), Ok(()));
    assert_eq!(rt; &word, &[6, 3, 4, 4, 1, 3]);
    let mut bytes = [9u16; 3];
    assert_eq!(rt;
        Evaluation::new(Gf256::new(), 3, 2, Upto::new(3)).issue(&[5, 7], &mut bytes),
        Ok(())
    );
    assert_eq!(rt; &bytes, &[5, 2, 11]);
    Ok(())
}

#[test]
fn what_is_fit(rt: HostRuntime) -> Result<(), Fail> {
    let field = Prime::new(929)?;
    assert_eq!(rt;
        Evaluation::new(field, 128, 128, Upto::new(128)).fitness(),
        Ok(())
    );
    assert_eq!(rt;
        Evaluation::new(field, 129, 2, Upto::new(129)).fitness(),
        Err(FitnessFault::Length)
    );
    assert_eq!(rt;
        Evaluation::new(field, 5, 2, Upto::new(4)).fitness(),
        Err(FitnessFault::Length)
    );
    assert_eq!(rt;
        Evaluation::new(field, 5, 0, Upto::new(5)).fitness(),
        Err(FitnessFault::Dimension)
    );
    assert_eq!(rt;
        Evaluation::new(field, 5, 6, Upto::new(5)).fitness(),
        Err(FitnessFault::Dimension)
    );
    assert_eq!(rt;
        Evaluation::new(Prime::new(7)?, 9, 2, Upto::new(9)).fitness(),
        Err(FitnessFault::Point(7))
    );
    let twice = [1u16, 3, 1, 9];
    assert_eq!(rt;
        Evaluation::new(Prime::new(7)?, 4, 2, &twice[..]).fitness(),
        Err(FitnessFault::Point(2))
    );
    Ok(())
}

#[test]
fn a_refused_message_leaves_the_buffer(rt: HostRuntime) -> Result<(), Fail> {
    let code = Evaluation::new(Prime::new(7)?, 6, 4, Upto::new(6));
    let mut word = [9u16; 6];
    assert_eq!(rt;
        code.issue(&[3, 7, 2, 8], &mut word),
        Err(CodeFault::Number(1))
    );
    assert_eq!(rt;
        code.issue(&[3, 7, 2], &mut word[0..5]),
        Err(CodeFault::MessageLength)
    );
    assert_eq!(rt;
        code.issue(&[3, 7, 2, 1], &mut word[0..5]),
        Err(CodeFault::WordLength)
    );
    assert_eq!(rt; &word, &[9, 9, 9, 9, 9, 9]);
    Ok(())
}
