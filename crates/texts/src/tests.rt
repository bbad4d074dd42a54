// Lines that are read, and lines that are not.
use crate::fault::{LineFault, understood};
use crate::spaced::Spaced;
use crate::words::{Words, only};
use fields::fault::FieldFault;
use fields::field::Field;
use std::test::Fail;

#[test]
fn numbers_are_read(rt: HostRuntime) -> Result<(), Fail> {
    let heap = rt.alloc();
    let Ok(numbers) = Words::of(" 1  22 +333 ").numbers(heap) else {
        return Err(Fail::new("the numbers are not read"));
    };
    assert_eq!(rt; numbers.as_slice(), [1, 22, 333].as_slice());
    assert!(rt; Words::of("1 two").numbers(heap).is_err());
    assert!(rt; Words::of("65536").numbers(heap).is_err());
    Ok(())
}

#[test]
fn words_are_taken_in_order(rt: HostRuntime) {
    let mut words = Words::of("depth 2 more");
    assert_eq!(rt; words.expect("depth"), Ok(()));
    assert_eq!(rt; words.number::<u8>(), Ok(2));
    assert_eq!(rt; words.end(), Err(LineFault::Unknown));
    assert_eq!(rt; words.word(), Err(LineFault::Unknown));
    assert_eq!(rt; words.end(), Ok(()));
}

// The order of the field that a line names, or why it names none.
fn order_of(line: &str) -> Result<Result<u32, FieldFault>, LineFault> {
    Ok(Words::of(line).field()?.map(|field| field.order()))
}

#[test]
fn fields_are_named(rt: HostRuntime) {
    assert_eq!(rt; order_of("gf256"), Ok(Ok(256)));
    assert_eq!(rt; order_of("prime 929"), Ok(Ok(929)));
    assert_eq!(rt; order_of("prime 9"), Ok(Err(FieldFault::Unlisted)));
    assert_eq!(rt; order_of("prime"), Err(LineFault::Unknown));
    assert_eq!(rt; order_of("bytes"), Err(LineFault::Unknown));
}

#[test]
fn what_is_read_and_printed(rt: HostRuntime) -> Result<(), Fail> {
    let heap = rt.alloc();
    assert_eq!(rt; only(&[7u16]), Ok(7));
    assert_eq!(rt; only(&[7u16, 8]), Err(LineFault::Unknown));
    assert!(rt; matches!(understood::<u16>(Err(LineFault::Unknown)), Ok(None)));
    let text = format!(in heap; "row{}", Spaced(&[3, 2]))?;
    assert_eq!(rt; text.as_str(), "row 3 2");
    Ok(())
}
