// Header locations and the opening, over numbers and slices: each returns 0 where it
// accepts, and else the refusal number and changes nothing.
// Assumes nothing; no public function has a `requires`.
#![tactic(auto)]

ghost use Rattle.std.specs.Prelude.{◌≡◌};
ghost use Rattle.answers.specs.Answers.{refusal_number};
ghost use Rattle.locations.specs.Locations.{located};
ghost use Rattle.opening.specs.Opening.{opened};
ghost use Rattle.boundary_answers.specs.BoundaryAnswers.{numbered_left};
ghost use Rattle.boundary_numbers.specs.BoundaryNumbers.{opened_left};

use boundary_numbers::LAYOUT_SIZE;

// Where the header of a location code lies in a host of this size.
pub fn location(code: u8, host_size: u64, offset: &mut [u64; 1]) -> u64
    ensures value { result ≡ refusal_number (located code host_size) }
    ensures offset_after { offset.new ≡ numbered_left (located code host_size) offset.old }
{
    boundary_answers::give_number(locations::locate(code, host_size), offset)
}

// The layout of the first candidate that is accepted. candidates holds deciphered headers of 512
// bytes, codes a location code for each.
pub fn open(candidates: &[u8], codes: &[u8], host_size: u64, layout: &mut [u64; LAYOUT_SIZE]) -> u64
    ensures value { result ≡ refusal_number (opened candidates.now codes.now host_size) }
    ensures layout_after { layout.new ≡ opened_left (opened candidates.now codes.now host_size) layout.old }
{
    boundary_numbers::give_layout(opening::open(candidates, codes, host_size), layout)
}
