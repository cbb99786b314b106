// What the exported functions store of an answer, and the number that they return: 0 for an acceptance, and else
// the refusal number. A refusal changes nothing, but that 16 and 18 store the first user sector in the way, and 18
// closes the view's lock.
// Assumes nothing; no public function has a `requires`.
#![tactic(auto)]

ghost use Rattle.std.specs.Prelude.{◌≡◌, [], ◌∷◌};
ghost use Rattle.answers.specs.Answers.{refusal_number};
ghost use Rattle.boundary_answers.specs.BoundaryAnswers.{numbered_left, sector_left, view_left, Tells};

use answers::Refusal;
use boundary_numbers::{LOCK, VIEW_SIZE};

// Stores a number that was asked for.
pub fn give_number(answer: Result<u64, Refusal>, place: &mut [u64; 1]) -> u64
    ensures value { result ≡ refusal_number answer }
    ensures place_after { place.new ≡ numbered_left answer place.old }
{
    boundary_numbers::give(answer.map(alone), place)
}

// A number as the array that it crosses the boundary in.
fn alone(number: u64) -> [u64; 1]
    ensures { result ≡ number ∷ [] }
{
    [number]
}

// Stores the sector that an answer names, and returns its number.
#[tactic(auto, unfolding(answers::specs::Answers::refusal_number, answers::specs::Answers::answer_sector, crate::specs::BoundaryAnswers::sector_left))]
pub fn give_answer(answer: Result<(), Refusal>, sector: &mut [u64; 1]) -> u64
    ensures { Tells answer sector.old result sector.new }
{
    match answer {
        Ok(()) => 0,
        Err(refusal) => give_refusal(refusal, sector),
    }
}

// Stores the sector that a refusal names, and returns its number.
#[tactic(auto, unfolding(crate::specs::BoundaryAnswers::sector_left))]
pub fn give_refusal(refusal: Refusal, sector: &mut [u64; 1]) -> u64
    ensures value { result ≡ refusal.number }
    ensures sector_after { sector.new ≡ sector_left refusal.sector sector.old }
{
    if let Some(first) = refusal.sector {
        *sector = [first];
    }
    u64::from(refusal.number)
}

// Closes the lock of a view whose write was refused 18, and returns the number.
#[tactic(auto, unfolding(crate::specs::BoundaryAnswers::view_left))]
pub fn lock_after(number: u64, view: &mut [u64; VIEW_SIZE]) -> u64
    ensures value { result ≡ number }
    ensures view_after { view.new ≡ view_left number view.old }
{
    if number != 18 {
        return number;
    }
    view[LOCK] = 1;
    18
}
