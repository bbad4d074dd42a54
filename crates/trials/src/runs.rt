// Whole runs of a collector.
use carrier::call::Call;
use carrier::collector::Collector;
use carrier::fault::CollectorFault;
use carrier::run::run;
use codes::fault::CodeFault;
use codes::interface::Issuer;
use codes::numbers::Upto;
use evaluation::Evaluation;
use fields::gf256::Gf256;
use fields::prime::Prime;
use layers::{Scaled, Trimmed};
use repetition::Repetition;
use std::test::Fail;

#[test]
fn a_late_row_that_is_refused(rt: HostRuntime) {
    let mut collector = Collector::new(Repetition::new(11, 3), 2);
    assert_eq!(rt; collector.deliver(0, &[4, 1]), Ok(()));
    assert_eq!(rt; collector.deliver(1, &[4, 2]), Ok(()));
    assert_eq!(rt; collector.deliver(2, &[4, 3]), Ok(()));
    let mut sheet = [9u16; 2];
    let fault = CollectorFault::Code {
        fault: CodeFault::Reach,
        row: 1,
    };
    assert_eq!(rt; collector.read(&mut sheet, &mut []), Err(fault));
    assert_eq!(rt; &sheet, &[9, 9]);
    assert_eq!(rt; collector.strike(2), Ok(()));
    assert_eq!(rt; collector.deliver(2, &[4, 1]), Ok(()));
    assert_eq!(rt; collector.read(&mut sheet, &mut []), Ok(1));
    assert_eq!(rt; &sheet, &[4, 1]);
}

#[test]
fn depths_and_lengths(rt: HostRuntime) {
    let mut deep = Collector::new(Repetition::new(11, 128), 16);
    assert_eq!(rt; deep.fitness(), Ok(()));
    assert_eq!(rt; deep.deliver(127, &[10; 16]), Ok(()));
    assert_eq!(rt; deep.deliver(128, &[10; 16]), Err(CollectorFault::Place));
    assert_eq!(rt;
        Collector::new(Repetition::new(11, 5), 17).fitness(),
        Err(CollectorFault::Depth)
    );
    assert_eq!(rt;
        Collector::new(Repetition::new(11, 5), 0).fitness(),
        Err(CollectorFault::Depth)
    );
    let mut sheet = [9u16; 3];
    assert_eq!(rt;
        deep.read(&mut sheet, &mut []),
        Err(CollectorFault::SheetLength)
    );
}

#[test]
fn a_run_of_calls(rt: HostRuntime) -> Result<(), Fail> {
    let heap = rt.alloc();
    let mut calls: Vec<Call> = Vec::new(heap);
    calls.push(Call::Deliver {
        place: 0,
        strip: vec![in heap; 200, 7]?,
        answer: None,
    })?;
    calls.push(Call::Deliver {
        place: 0,
        strip: vec![in heap; 1, 1]?,
        answer: None,
    })?;
    calls.push(Call::Strike {
        place: 3,
        answer: None,
    })?;
    calls.push(Call::Deliver {
        place: 3,
        strip: vec![in heap; 200, 7]?,
        answer: None,
    })?;
    calls.push(Call::Read {
        sheet: vec![in heap; 0, 0]?,
        scratch: vec![in heap; 0; 35]?,
        answer: None,
    })?;
    run(
        Evaluation::new(Gf256::new(), 4, 1, Upto::new(4)),
        2,
        &mut calls,
    );
    assert!(rt; calls.len() == 5);
    assert!(rt;
        matches!(
            &calls[1],
            Call::Deliver {
                place: _,
                strip: _,
                answer: Some(Err(CollectorFault::Taken))
            }
        )
    );
    assert!(rt;
        matches!(
            &calls[2],
            Call::Strike {
                place: _,
                answer: Some(Err(CollectorFault::Vacant))
            }
        )
    );
    assert!(rt;
        matches!(
            &calls[4],
            Call::Read {
                sheet: _,
                scratch: _,
                answer: Some(Ok(0))
            }
        )
    );
    Ok(())
}

#[test]
fn a_pile_over_bytes(rt: HostRuntime) {
    let bytes = Gf256::new();
    let by = [3u16, 5, 7, 9];
    let base = Evaluation::new(bytes, 4, 2, Upto::new(4));
    let pile = Trimmed::new(Scaled::new(bytes, &by[..], base), 1);
    let mut word = [0u16; 4];
    assert_eq!(rt; pile.issue(&[200], &mut word), Ok(()));
    let mut collector = Collector::new(pile, 1);
    assert_eq!(rt; collector.deliver(0, &[word[0]]), Ok(()));
    assert_eq!(rt; collector.deliver(1, &[word[1]]), Ok(()));
    assert_eq!(rt; collector.deliver(2, &[word[2] ^ 1]), Ok(()));
    assert_eq!(rt; collector.deliver(3, &[word[3]]), Ok(()));
    let mut sheet = [9u16; 1];
    let mut scratch = [0u16; 35];
    assert_eq!(rt; collector.read(&mut sheet, &mut scratch), Ok(1));
    assert_eq!(rt; &sheet, &[200]);
    assert_eq!(rt; collector.strike(0), Ok(()));
    let fault = CollectorFault::Code {
        fault: CodeFault::Reach,
        row: 0,
    };
    assert_eq!(rt; collector.read(&mut sheet, &mut scratch), Err(fault));
    assert_eq!(rt; &sheet, &[200]);
}

#[test]
fn a_pile_over_a_prime(rt: HostRuntime) -> Result<(), Fail> {
    let eleven = Prime::new(11)?;
    let by = [3u16, 5, 7, 9];
    let base = Evaluation::new(eleven, 4, 2, Upto::new(4));
    let pile = Scaled::new(eleven, &by[..], Trimmed::new(base, 1));
    let mut word = [0u16; 4];
    assert_eq!(rt; pile.issue(&[6], &mut word), Ok(()));
    assert_eq!(rt; &word, &[7, 8, 9, 10]);
    let mut collector = Collector::new(pile, 1);
    assert_eq!(rt; collector.deliver(1, &[8]), Ok(()));
    assert_eq!(rt; collector.deliver(3, &[10]), Ok(()));
    let mut sheet = [9u16; 1];
    let mut scratch = [0u16; 35];
    assert_eq!(rt; collector.read(&mut sheet, &mut scratch), Ok(0));
    assert_eq!(rt; &sheet, &[6]);
    Ok(())
}
