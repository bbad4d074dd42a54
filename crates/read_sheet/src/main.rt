// Reads a file of strips from standard input, and prints its heading, how its strips fared, and the rows of the sheet:
//
//     field 1 11 n 5 k 2 depth 2
//     kept 4 declined 0 wrong 1
//     row 0 3 2
//     row 1 1 0
//
// A file that is refused, or is longer than 65,535 bytes, gets one line only, as `refused 22 place 0 row 0`.

#![tactic(auto)]

use file::received::{Received, receive};
use std::io;
use std::io::Read;
use texts::spaced::Spaced;

// One byte more than a file may have, by which a longer one is known.
const LIMIT: u64 = 65536;

// Prints the heading, the counts, and each row.
fn print_sheet(rt: &HostRuntime, received: &Received) -> io::Result<()> {
    let heading = received.heading;
    println!(rt;
        "field {} {} n {} k {} depth {}",
        heading.kind, heading.modulus, heading.n, heading.k, heading.depth
    )?;
    println!(rt;
        "kept {} declined {} wrong {}",
        received.kept, received.declined, received.wrong
    )?;
    let width = usize::from(heading.k).max(1);
    for (row, numbers) in received.rows().chunks(width).enumerate() {
        println!(rt; "row {row}{}", Spaced(numbers))?;
    }
    Ok(())
}

fn main(rt: HostRuntime) -> anyhow::Result<()> {
    let mut bytes = Vec::new(rt.alloc());
    rt.stdin().take(LIMIT).read_to_end(&mut bytes)?;
    match receive(&bytes) {
        Ok(received) => print_sheet(&rt, &received)?,
        Err(fault) => println!(rt; "{fault}")?,
    }
    Ok(())
}

#[cfg(test)]
mod tests {
    use super::*;
    use file::heading::Heading;
    use file::write;
    use std::test::Fail;

    // The number and the place by which a file is refused, and 0 where it is received.
    fn refusal(file: &[u8]) -> (u8, usize) {
        match receive(file) {
            Ok(_) => (0, 0),
            Err(fault) => (fault.number(), fault.place()),
        }
    }

    #[test]
    fn refuses_by_the_first_check_that_fails(rt: HostRuntime) {
        assert_eq!(rt; refusal(&[1, 0, 11, 5, 2, 2, 0]), (20, 0));
        assert_eq!(rt; refusal(&[3, 0, 11, 5, 2, 2, 0, 1]), (21, 0));
        assert_eq!(rt; refusal(&[1, 0, 9, 5, 2, 2, 0, 1]), (21, 0));
        assert_eq!(rt; refusal(&[1, 0, 11, 0, 2, 2, 0, 1]), (22, 0));
        assert_eq!(rt; refusal(&[1, 0, 11, 0, 2, 2, 0, 0]), (2, 0));
        assert_eq!(rt; refusal(&[1, 0, 3, 5, 2, 0, 0, 0]), (4, 3));
        assert_eq!(rt; refusal(&[1, 0, 11, 5, 2, 0, 0, 0]), (14, 0));
        assert_eq!(rt; refusal(&[1, 0, 11, 5, 2, 2, 0, 0]), (13, 0));
    }

    #[test]
    fn receives_what_was_written(rt: HostRuntime) -> Result<(), Fail> {
        let heading = Heading {
            kind: 2,
            modulus: 285,
            n: 3,
            k: 2,
            depth: 1,
        };
        let mut output = [0u8; 20];
        let Ok(size) = write(&heading, &[5, 7], &mut output) else {
            return Err(Fail::new("the sheet is refused"));
        };
        assert_eq!(rt; size, 17);
        assert_eq!(rt; &output[0..9], [0, 0, 5, 1, 0, 2, 2, 0, 11].as_slice());
        match receive(&output[0..17]) {
            Ok(received) => {
                assert_eq!(rt; (received.kept, received.number(0, 1)), (3, 7));
                Ok(())
            },
            Err(_) => Err(Fail::new("the file is refused")),
        }
    }
}
