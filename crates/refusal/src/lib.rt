//! The numbered refusals of document 01, one vocabulary for every layer.
#![tactic(auto)]

ghost use Rattle.std.specs.Prelude.{◌≡◌};
ghost use Rattle.refusal.specs.Number.{number_of};

// Each by document 01's name and number.
#[derive(Clone, Copy, PartialEq, Eq, Debug)]
pub enum Refusal {
    BadShape = 1,
    BadCap = 2,
    TooLong = 3,
    UnknownOpcode = 4,
    NotCarried = 5,
    Truncated = 6,
    BadShift = 7,
    BadHint = 8,
    BadRegister = 9,
    Overlap = 10,
    NoRoom = 11,
    SamePosition = 12,
    BadPosition = 13,
    BadGates = 14,
}

// A refusal, and its offset from the start of the bytes that were judged, 0 where it has none.
#[derive(Clone, Copy, PartialEq, Eq, Debug)]
pub struct RefusedAt {
    pub refusal: Refusal,
    pub offset: usize,
}

impl From<Refusal> for u8 {
    ghost from_gives = { λ refusal number. number ≡ number_of refusal };

    fn from(refusal: Refusal) -> u8 {
        refusal as u8
    }
}

// A refusal that has no offset.
impl From<Refusal> for RefusedAt {
    ghost from_gives = { λ refusal refused. refused ≡ record { refusal = refusal; offset = 0 } };

    fn from(refusal: Refusal) -> RefusedAt {
        RefusedAt { refusal, offset: 0 }
    }
}
