// Files: what is read of them, and why they are refused.
use carrier::fault::CollectorFault;
use codes::fault::CodeFault;
use file::fault::FileFault;
use file::heading::Heading;
use file::received::receive;
use file::write;
use std::test::Fail;

// Four strips of five, for a sheet of two rows; one number is wrong.
const EXAMPLE: [u8; 28] = [
    1, 0, 5, 0, 1, 2, 0, 9, 0, 1, 3, 0, 9, 0, 1, 4, 0, 0, 0, 1, 1, 0, 11, 5, 2, 2, 0, 20,
];

// The number and the place of a file's refusal, or 0 and 0.
fn refusal(file: &[u8]) -> (u8, usize) {
    match receive(file) {
        Ok(_) => (0, 0),
        Err(fault) => (fault.number(), fault.place()),
    }
}

#[test]
fn the_example_with_bytes_in_front(rt: HostRuntime) -> Result<(), Fail> {
    let mut bytes = [7u8, 7, 7].to_vec(rt.alloc())?;
    bytes.extend_from_slice(&EXAMPLE)?;
    let received = receive(&bytes)?;
    assert_eq!(rt; received.kept, 4);
    assert_eq!(rt; received.declined, 0);
    assert_eq!(rt; received.wrong, 1);
    assert_eq!(rt; received.number(0, 0), 3);
    assert_eq!(rt; received.number(0, 1), 2);
    assert_eq!(rt; received.number(1, 0), 1);
    assert_eq!(rt; received.number(1, 1), 0);
    Ok(())
}

#[test]
fn refusals_in_their_order(rt: HostRuntime) {
    assert_eq!(rt; refusal(&[]), (20, 0));
    assert_eq!(rt; refusal(&[1, 0, 11, 5, 2, 2, 0]), (20, 0));
    assert_eq!(rt; refusal(&[3, 0, 11, 5, 2, 2, 0, 9]), (21, 0));
    assert_eq!(rt; refusal(&[1, 0, 9, 5, 2, 2, 0, 9]), (21, 0));
    assert_eq!(rt; refusal(&[2, 1, 30, 5, 2, 2, 0, 9]), (21, 0));
    assert_eq!(rt; refusal(&[1, 0, 11, 5, 2, 2, 0, 5]), (22, 0));
    assert_eq!(rt; refusal(&[0, 0, 0, 0, 1, 0, 11, 5, 2, 2, 0, 4]), (22, 0));
    assert_eq!(rt; refusal(&[1, 0, 11, 5, 2, 0, 0, 0]), (14, 0));
    assert_eq!(rt; refusal(&[1, 0, 11, 5, 2, 17, 0, 0]), (14, 0));
    assert_eq!(rt; refusal(&[1, 0, 11, 5, 2, 2, 0, 0]), (13, 0));
}

#[test]
fn headings_that_are_not_fit(rt: HostRuntime) {
    assert_eq!(rt; refusal(&[1, 0, 11, 0, 2, 2, 0, 0]), (2, 0));
    assert_eq!(rt; refusal(&[1, 0, 11, 129, 2, 2, 0, 0]), (2, 0));
    assert_eq!(rt; refusal(&[2, 1, 29, 255, 2, 255, 0, 0]), (2, 0));
    assert_eq!(rt; refusal(&[1, 0, 11, 5, 0, 2, 0, 0]), (3, 0));
    assert_eq!(rt; refusal(&[1, 0, 7, 9, 2, 2, 0, 0]), (4, 7));
}

#[test]
fn strips_that_are_declined(rt: HostRuntime) -> Result<(), Fail> {
    let file = [
        0u8, 0, 4, 0, 0, 5, 9, 0, 4, 1, 0, 11, 1, 0, 4, 1, 0, 11, 3, 1, 1, 0, 15,
    ];
    let received = receive(&file)?;
    assert_eq!(rt; received.kept, 2);
    assert_eq!(rt; received.declined, 3);
    assert_eq!(rt; received.number(0, 0), 4);
    Ok(())
}

#[test]
fn the_longest_file(rt: HostRuntime) -> Result<(), Fail> {
    let mut bytes = vec![in rt.alloc(); 0u8; 65527]?;
    bytes.extend_from_slice(&[1, 0, 11, 5, 2, 2, 0, 0])?;
    assert_eq!(rt; refusal(&bytes), (13, 0));
    bytes.extend_from_slice(&[0])?;
    assert_eq!(rt; refusal(&bytes), (20, 0));
    Ok(())
}

#[test]
fn what_is_written_is_read(rt: HostRuntime) -> Result<(), Fail> {
    let heading = Heading {
        kind: 2,
        modulus: 285,
        n: 4,
        k: 2,
        depth: 2,
    };
    let mut output = [77u8; 30];
    assert_eq!(rt;
        write(&heading, &[1, 2, 3, 256], &mut output),
        Err(FileFault::from(CollectorFault::from(CodeFault::Number(3))))
    );
    assert_eq!(rt;
        write(&heading, &[1, 2, 3, 4], &mut output[0..27]),
        Err(FileFault::Output)
    );
    assert_eq!(rt; output[0], 77);
    assert_eq!(rt; write(&heading, &[1, 2, 3, 4], &mut output), Ok(28));
    assert_eq!(rt; output[28], 77);
    let received = receive(&output[0..28])?;
    assert_eq!(rt; received.wrong, 0);
    assert_eq!(rt; received.number(1, 1), 4);
    Ok(())
}
