// The answer of an append.
ghost use Rattle.std.specs.Prelude.{◌≡◌};
ghost use Rattle.writer.specs.Answers.{answer_of};

use geometry::EntryNumber;
use outcome::Refusal;

// The answer of `append`: the refusal, 0 when accepted, and the new entry's number, 0 when refused. C has it as it stands, so the
// refusal is a number beside the other.
#[repr(C)]
#[derive(Clone, Copy)]
pub struct Appended {
    pub refusal: u32,
    pub number: EntryNumber,
}

impl From<Result<EntryNumber, Refusal>> for Appended {
    ghost from_gives = { λ outcome answer. answer ≡ answer_of outcome };

    fn from(outcome: Result<EntryNumber, Refusal>) -> Appended {
        match outcome {
            Ok(number) => Appended { refusal: 0, number },
            Err(refusal) => Appended {
                refusal: refusal.number(),
                number: EntryNumber(0),
            },
        }
    }
}
