// The paper's number and place of each refusal, and the answer room.
ghost use Rattle.std.specs.Prelude.{◌≡◌};
ghost use Rattle.loader.specs.Answer.{answer, refusal_answer, load_answer, room_with};

use crate::{Answer, Refusal};
use isa::Place;
use word::number::put_word;

// A refusal executes nothing: its count is 0.
fn refused(number: u32, at: Place) -> Answer
    ensures { result ≡ answer number 0 at.0 }
{
    Answer {
        number,
        count: 0,
        place: at.0 as u64,
    }
}

impl From<Refusal> for Answer {
    ghost from_gives = { λ r a. a ≡ refusal_answer r };

    fn from(r: Refusal) -> Answer {
        match r {
            Refusal::BadTable => refused(1, Place(0)),
            Refusal::ProgramLength => refused(2, Place(0)),
            Refusal::MemoryLength => refused(2, Place(1)),
            Refusal::StateLength => refused(2, Place(2)),
            Refusal::RoomLength => refused(2, Place(3)),
            Refusal::NoEnd(i) => refused(3, i),
            Refusal::BadBits(i) => refused(4, i),
            Refusal::BadCluster(i) => refused(5, i),
            Refusal::TooWide(i) => refused(6, i),
            Refusal::TwoWrites(i) => refused(7, i),
            Refusal::BadControl(i) => refused(8, i),
        }
    }
}

impl From<Result<(), Refusal>> for Answer {
    ghost from_gives = { λ l a. a ≡ load_answer l };

    fn from(loaded: Result<(), Refusal>) -> Answer {
        match loaded {
            Ok(()) => Answer {
                number: 0,
                count: 0,
                place: 0,
            },
            Err(r) => r.into(),
        }
    }
}

// Number, count and place, 4 bytes each, in a room of 12; any other is left as it is.
pub fn write(room: &mut [u8], a: Answer)
    ensures { room.new ≡ room_with a room.old }
{
    if room.len() == 12 {
        put_word(room, 0, a.number);
        put_word(room, 4, (a.count % 0x1_0000_0000) as u32);
        put_word(room, 8, (a.place % 0x1_0000_0000) as u32);
    }
}
