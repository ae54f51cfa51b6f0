// Replies: what a call came to, a count or a refusal, in the two numbers that C is told.
ghost use Rattle.std.specs.Prelude.{◌≡◌};
ghost use Rattle.unit.specs.Answers.{reply_of};

use crate::Reply;
use refusal::Refusal;

impl From<Result<u32, Refusal>> for Reply {
    ghost from_gives = { λ outcome reply. reply ≡ reply_of outcome };

    fn from(outcome: Result<u32, Refusal>) -> Reply {
        match outcome {
            Ok(count) => Reply { answer: 0, count },
            Err(refusal) => Reply {
                answer: u32::from(refusal),
                count: 0,
            },
        }
    }
}
