// The paper's number, count and place of a verdict.
ghost use Rattle.std.specs.Prelude.{◌≡◌};
ghost use Rattle.schedule.specs.Answer.{verdict_answer};

use crate::TooSoon;
use loader::Answer;

pub fn of_verdict(v: Result<(), TooSoon>) -> Answer
    ensures { result ≡ verdict_answer v }
{
    // a function: neither Answer nor Result is of this crate, so no From may be written between them
    match v {
        Ok(()) => Answer {
            number: 0,
            count: 0,
            place: 0,
        },
        Err(soon) => Answer {
            number: 9,
            count: soon.producer.0 as u64,
            place: soon.consumer.0 as u64,
        },
    }
}
