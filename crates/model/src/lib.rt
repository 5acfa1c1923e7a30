// The types of the calls' answers.
#![tactic(auto)]

ghost use Rattle.std.specs.Prelude.{◌≡◌};
ghost use Rattle.model.specs.Answers.{refusal_number};

// Why a call is turned down: document 01, "Turned down, in checking order".
#[derive(Clone, Copy, Debug, PartialEq, Eq, Drop)]
pub enum Refusal {
    WrongLengths = 1,
    NotInForm = 2,
    // A package's layout is wrong.
    NotLaidOut = 3,
    NoTimestamp = 4,
    NoSetting = 5,
    WrongProgramLength = 6,
    Malformed = 7,
    // The timestamp is held with another program.
    HeldOtherwise = 8,
    Full = 9,
    NotHeld = 10,
    WithdrawnAlready = 11,
    // A package would pass its own limits or the lent slice.
    NoRoom = 12,
    NoVersion = 13,
    BelowCutoff = 14,
    // A change below a new cutoff is New or Invalid.
    UnsettledBelow = 15,
}

// Its number in document 01.
impl From<Refusal> for u8 {
    ghost from_gives = { λ refusal number. number ≡ refusal_number refusal };

    fn from(refusal: Refusal) -> u8 {
        refusal as u8
    }
}

// What taking in answers where it is not refused.
#[derive(Clone, Copy, Debug, PartialEq, Eq, Drop)]
pub enum Outcome {
    Done,
    // The same timestamp is held with the same program.
    Held,
}

// A turn: idle, or what was done with the change of a timestamp.
#[derive(Clone, Copy, Debug, PartialEq, Eq, Drop)]
pub enum Turn {
    Idle,
    Ran(u64),
    Stood(u64),
    Cleared(u64),
    // Its run broke off at this place, counted from 0.
    Faulted(u64, usize),
}

// The standing of a timestamp: status and flag, as the tables have them.
#[derive(Clone, Copy, Debug, PartialEq, Eq, Drop)]
pub struct Standing {
    pub status: u16,
    pub withdrawn: u16,
}
