// Lines that ask something, with the answers that they expect.
use crate::questions::{Answer, CodeQuestion, FieldQuestion, FileQuestion, Question};
use std::alloc::Global;
use texts::fault::LineFault;
use texts::words::{Words, only};

// A question of the form `WORD .. = ..`; `asked` begins with its first word.
pub fn parse_question(
    heap: Global,
    first: &str,
    mut asked: Words<'_>,
    expected: Words<'_>,
) -> Result<Question, LineFault> {
    let _ = asked.next();
    match first {
        "product" | "powers" | "inverses" => {
            let question = parse_field_question(heap, first, asked, expected)?;
            Ok(Question::Field(question))
        }
        "decode" => {
            let received = parse_entries(heap, asked)?;
            let expected = parse_answer(heap, expected)?;
            Ok(Question::Code(CodeQuestion::Decode { received, expected }))
        }
        "word" => {
            let message = asked.numbers(heap)?;
            let expected = expected.numbers(heap)?;
            Ok(Question::Code(CodeQuestion::Word { message, expected }))
        }
        _ => {
            let numbers = asked.numbers(heap)?;
            accepting_question(first, &numbers, parse_answer(heap, expected)?)
        }
    }
}

// A question about a field: the inverses, the powers of a number, or a product of two.
fn parse_field_question(
    heap: Global,
    first: &str,
    asked: Words<'_>,
    expected: Words<'_>,
) -> Result<FieldQuestion, LineFault> {
    let numbers = asked.numbers(heap)?;
    match (first, numbers.as_slice()) {
        ("inverses", []) => Ok(FieldQuestion::Inverses(parse_entries(heap, expected)?)),
        ("powers", [of]) => Ok(FieldQuestion::Powers {
            of: *of,
            expected: expected.numbers(heap)?,
        }),
        ("product", [a, b]) => Ok(FieldQuestion::Product {
            a: *a,
            b: *b,
            expected: only(&expected.numbers(heap)?)?,
        }),
        _ => Err(LineFault::Unknown),
    }
}

// A question that is answered by `accepted` or a refusal.
fn accepting_question(
    first: &str,
    numbers: &[u16],
    expected: Answer,
) -> Result<Question, LineFault> {
    match (first, numbers) {
        ("modulus", [modulus]) => Ok(Question::Modulus {
            modulus: *modulus,
            expected,
        }),
        ("depth", [depth]) => Ok(Question::Code(CodeQuestion::Depth {
            depth: *depth,
            expected,
        })),
        ("fitness", []) => Ok(Question::Code(CodeQuestion::Fitness(expected))),
        _ => Err(LineFault::Unknown),
    }
}

// A question without `=`: what was received of a symbol, the counts of a file, or a row of its sheet.
pub fn parse_plain_question(
    heap: Global,
    first: &str,
    mut words: Words<'_>,
) -> Result<Question, LineFault> {
    match first {
        "received" => Ok(Question::Received(parse_entries(heap, words)?)),
        "kept" => Ok(Question::File(parse_counts(words)?)),
        _ => {
            let row = words.number()?;
            let expected = words.numbers(heap)?;
            Ok(Question::File(FileQuestion::Row { row, expected }))
        }
    }
}

// The counts after `kept`: a number, `declined` and a number, `wrong` and a number.
fn parse_counts(mut words: Words<'_>) -> Result<FileQuestion, LineFault> {
    let kept = words.number::<u16>()?;
    words.expect("declined")?;
    let declined = words.number::<u16>()?;
    words.expect("wrong")?;
    let wrong = words.number::<u16>()?;
    words.end()?;
    Ok(FileQuestion::Counts {
        kept: usize::from(kept),
        declined: usize::from(declined),
        wrong: usize::from(wrong),
    })
}

// An answer: `accepted`, `refused` and a number, or `wrong`, a number, `message` and its numbers.
fn parse_answer(heap: Global, mut words: Words<'_>) -> Result<Answer, LineFault> {
    match words.word()? {
        "accepted" => {
            words.end()?;
            Ok(Answer::Accepted)
        }
        "refused" => {
            let number = words.number()?;
            words.end()?;
            Ok(Answer::Refused(number))
        }
        "wrong" => {
            let wrong = words.number::<u16>()?;
            words.expect("message")?;
            Ok(Answer::Message {
                message: words.numbers(heap)?,
                wrong: usize::from(wrong),
            })
        }
        _ => Err(LineFault::Unknown),
    }
}

// The numbers that are left of a line, where `-` stands for one that is missing.
fn parse_entries(heap: Global, words: Words<'_>) -> Result<Vec<Option<u16>>, LineFault> {
    words.map(parse_entry).try_collect(heap)
}

// The number in a word, or nothing where it is `-`.
fn parse_entry(word: &str) -> Result<Option<u16>, LineFault> {
    match word {
        "-" => Ok(None),
        _ => Ok(Some(word.parse::<u16>()?)),
    }
}
