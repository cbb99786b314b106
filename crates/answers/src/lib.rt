// Answers: what was asked for, or why it is refused (RULES.md, Refusals).
// Assumes nothing; no function has a `requires`.
#![tactic(auto)]

ghost use Rattle.std.specs.Prelude.{◌≡◌};
ghost use Rattle.answers.specs.Answers.{refusal_by, refusal_at, refusal_number, locked_after};

// The refusal numbers, named as in refusals.txt.
pub const LENGTHS: u8 = 1;

pub const CODE: u8 = 2;

pub const HOST_SIZE: u8 = 3;

pub const NO_HEADER: u8 = 4;

pub const VERSION: u8 = 5;

pub const RESERVED: u8 = 6;

pub const FLAGS: u8 = 7;

pub const SECTOR_SIZE: u8 = 8;

pub const HIDDEN_SIZE: u8 = 9;

pub const DATA_AREA: u8 = 10;

pub const UNSOUND: u8 = 11;

pub const NOT_NESTED: u8 = 12;

pub const IMAGE_SIZE: u8 = 13;

pub const COUNT: u8 = 14;

pub const BUFFER_SIZE: u8 = 15;

pub const OUTSIDE: u8 = 16;

pub const LOCKED: u8 = 17;

pub const PROTECTED: u8 = 18;

pub const MAGIC: u8 = 19;

pub const UNALIGNED: u8 = 20;

// Why a call is refused: a refusal number, and for some the first user sector that is in the way.
// The number is no enum of its own: anybody may make a refusal up, and TellsNumbers in
// guarantees/specs/Boundary.antt says of every number that it is told as it is.
#[derive(Clone, Copy, Debug, PartialEq, Eq)]
pub struct Refusal {
    pub number: u8,
    pub sector: Option<u64>,
}

impl Refusal {
    // By a number alone.
    pub fn new(number: u8) -> Refusal
        ensures { result ≡ refusal_by number }
    {
        Refusal {
            number,
            sector: None,
        }
    }

    // By a number, at the user sector that is in the way.
    pub fn at(number: u8, sector: u64) -> Refusal
        ensures { result ≡ refusal_at number sector }
    {
        Refusal {
            number,
            sector: Some(sector),
        }
    }
}

// The refusal number of an answer, 0 where it is an acceptance.
#[tactic(auto, unfolding(crate::specs::Answers::refusal_number))]
pub fn refusal_number<T>(answer: &Result<T, Refusal>) -> u8
    ensures { result ≡ refusal_number answer.now }
{
    match answer {
        Ok(_) => 0,
        Err(refusal) => refusal.number,
    }
}

// A lock after a write that returned this number: 18 closes it.
#[tactic(auto, using(crate::proofs::LockLaws::lock_closed, crate::proofs::LockLaws::lock_left_alone))]
pub fn locked_after(locked: bool, number: u8) -> bool
    ensures { result ≡ locked_after locked number }
{
    if number == PROTECTED {
        return true;
    }
    locked
}
