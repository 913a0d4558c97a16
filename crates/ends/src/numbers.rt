ghost use Rattle.std.specs.Prelude.{◌≡◌};
ghost use Rattle.ends.specs.Numbers.{judged_number, refusal_number, ran_numbers};

use super::go_call::{Refusal, Value};
use super::judge_call::Judged;

// What a call came to, for other languages: the answer by its number, the room left and the bytes written. The C interface needs numbers, with a value's fields beside them.
#[repr(C)]
#[derive(Clone, Copy, Debug, PartialEq)]
pub struct RanC {
    pub answer: u32,
    pub room: u32,
    pub bytes: usize,
}

impl From<Judged> for u32 {
    ghost from_gives = { λ judged n. n ≡ judged_number judged };

    fn from(judged: Judged) -> u32 {
        match judged {
            Judged::Ends => 0,
            Judged::NoReason => 1,
            Judged::NoProgram => 2,
            Judged::Many => 3,
            Judged::Few => 4,
        }
    }
}

// 0 is a value.
impl From<Refusal> for u32 {
    ghost from_gives = { λ refusal n. n ≡ refusal_number refusal };

    fn from(refusal: Refusal) -> u32 {
        match refusal {
            Refusal::Full => 1,
            Refusal::Deep => 2,
            Refusal::Unproved => 3,
            Refusal::BadCall => 4,
            Refusal::OutFull => 5,
            Refusal::Small => 6,
        }
    }
}

impl From<Result<Value, Refusal>> for RanC {
    ghost from_gives = { λ ran c. c ≡ ran_numbers ran };

    fn from(ran: Result<Value, Refusal>) -> RanC {
        match ran {
            Ok(Value { bytes, room }) => RanC {
                answer: 0,
                room,
                bytes,
            },
            Err(refusal) => RanC {
                answer: u32::from(refusal),
                room: 0,
                bytes: 0,
            },
        }
    }
}
