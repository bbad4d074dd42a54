// Examples of the repetition code.
use crate::repetition::Repetition;
use codes::fault::{CodeFault, FitnessFault};
use codes::interface::{Code, Issuer};

// What the code of order 11 and length 5 answers to these numbers and marks, and the number that its message buffer then holds.
fn decoded(received: &[u16], marks: &[u8]) -> (Result<usize, CodeFault>, u16) {
    let mut message = [9u16];
    let answer = Repetition::new(11, 5).decode(received, marks, &mut message, &mut []);
    (answer, message[0])
}

#[test]
fn the_majority_is_found(rt: HostRuntime) {
    let received = [4u16, 4, 7, 4, 7];
    assert_eq!(rt; decoded(&received, &[0, 0, 0, 0, 0]), (Ok(2), 4));
    assert_eq!(rt;
        decoded(&received, &[1, 0, 0, 0, 0]),
        (Err(CodeFault::Reach), 9)
    );
    assert_eq!(rt; decoded(&received, &[0, 0, 2, 0, 255]), (Ok(0), 4));
    assert_eq!(rt;
        decoded(&received, &[255, 0, 0, 0, 0]),
        (Err(CodeFault::Reach), 9)
    );
    assert_eq!(rt; decoded(&[4, 4, 99, 4, 4], &[0, 0, 2, 0, 0]), (Ok(0), 4));
}

#[test]
fn the_first_failing_check_answers(rt: HostRuntime) {
    assert_eq!(rt; Repetition::new(1, 0).fitness(), Err(FitnessFault::Length));
    assert_eq!(rt; Repetition::new(1, 128).fitness(), Err(FitnessFault::Order));
    assert_eq!(rt;
        decoded(&[4, 11, 7, 4], &[0; 5]),
        (Err(CodeFault::WordLength), 9)
    );
    assert_eq!(rt;
        decoded(&[4, 11, 7, 4, 12], &[0; 5]),
        (Err(CodeFault::Number(1)), 9)
    );
    let mut word = [3u16; 4];
    let code = Repetition::new(11, 5);
    assert_eq!(rt;
        code.issue(&[1, 11], &mut word),
        Err(CodeFault::MessageLength)
    );
    assert_eq!(rt; code.issue(&[11], &mut word), Err(CodeFault::WordLength));
    assert_eq!(rt; word, [3; 4]);
}
