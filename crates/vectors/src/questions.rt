// What the lines of input ask, with the answers that they expect.
ghost use Rattle.std.specs.Prelude.{◌≡◌, MatchResult};
ghost use Rattle.vectors.specs.declared.questions.Answer.TheVariants.{Accepted, Refused};

// An answer of the library, expected or given.
#[derive(Drop)]
pub enum Answer {
    Accepted,
    // A refusal by its number, as the text has it.
    Refused(u8),
    Message { message: Vec<u16>, wrong: usize },
}

// A check passes, or refuses by a number.
impl From<Result<(), u8>> for Answer {
    ghost from_gives = { λ r a. MatchResult r (λ _. a ≡ Accepted) (λ n. a ≡ Refused n) };

    fn from(checked: Result<(), u8>) -> Answer {
        match checked {
            Ok(()) => Answer::Accepted,
            Err(number) => Answer::Refused(number),
        }
    }
}

// A question about a field.
#[derive(Drop)]
pub enum FieldQuestion {
    Product { a: u16, b: u16, expected: u16 },
    Powers { of: u16, expected: Vec<u16> },
    Inverses(Vec<Option<u16>>),
}

// A question about a code.
#[derive(Drop)]
pub enum CodeQuestion {
    Fitness(Answer),
    Depth {
        depth: u16,
        expected: Answer,
    },
    Word {
        message: Vec<u16>,
        expected: Vec<u16>,
    },
    Decode {
        received: Vec<Option<u16>>,
        expected: Answer,
    },
}

// A question about a file.
#[derive(Drop)]
pub enum FileQuestion {
    Counts {
        kept: usize,
        declined: usize,
        wrong: usize,
    },
    Row {
        row: u8,
        expected: Vec<u16>,
    },
}

#[derive(Drop)]
pub enum Question {
    Modulus { modulus: u16, expected: Answer },
    Field(FieldQuestion),
    Code(CodeQuestion),
    File(FileQuestion),
    // The numbers that were received of the symbol that is set.
    Received(Vec<Option<u16>>),
}
