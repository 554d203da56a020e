// The answer of a reply.
ghost use Rattle.std.specs.Prelude.{◌≡◌, Ok, Err};
ghost use Rattle.vliw.specs.Run.{number_of};
ghost use Rattle.call.specs.Reply.{reply_answer};

use crate::{Ended, Unrun};
use loader::Answer;
use vliw::{Ending, Fault};

fn number(e: Ending) -> u32
    ensures { result ≡ number_of e }
{
    match e {
        Ending::Paused => 0,
        Ending::Stopped => 255,
        Ending::Faulted(Fault::InFlight) => 11,
        Ending::Faulted(Fault::Misaligned) => 12,
        Ending::Faulted(Fault::OutOfBounds) => 13,
        Ending::Faulted(Fault::StoresClash) => 14,
        Ending::Faulted(Fault::BadLink) => 17,
    }
}

impl From<Ended> for Answer {
    ghost from_gives = { λ e a. a ≡ reply_answer (Ok e) };

    fn from(e: Ended) -> Answer {
        Answer {
            number: number(e.ending),
            count: e.count.0,
            place: e.place.0 as u64,
        }
    }
}

impl From<Unrun> for Answer {
    ghost from_gives = { λ u a. a ≡ reply_answer (Err u) };

    fn from(u: Unrun) -> Answer {
        match u {
            Unrun::Refused(r) => r.into(),
            Unrun::BadState => Answer {
                number: 10,
                count: 0,
                place: 0,
            },
        }
    }
}
