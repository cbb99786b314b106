// Where reads and writes on a view find their bytes, over numbers: each returns what the read or the write of such
// sizes does, and stores the offset where that accepts, or the sector in the way.
// Assumes nothing; no public function has a `requires`.
#![tactic(auto)]

ghost use Rattle.std.specs.Prelude.{◌≡◌};
ghost use Rattle.answers.specs.Answers.{refusal_number, answer_sector};
ghost use Rattle.boundary_answers.specs.BoundaryAnswers.{sector_left};
ghost use Rattle.boundary_extents.specs.BoundaryExtents.{offset_left, ReadExtentCall, WriteExtentCall};

use answers::Refusal;
use boundary_answers::{give_refusal, lock_after};
use boundary_numbers::VIEW_SIZE;

// Where in the host a read of such sizes finds its bytes: the extent's first byte.
pub fn read_extent(
    view: &[u64; VIEW_SIZE],
    image_size: u64,
    first: u64,
    count: u64,
    buffer_size: u64,
    offset: &mut [u64; 1],
    sector: &mut [u64; 1],
) -> u64
    ensures { ReadExtentCall view.now image_size first count buffer_size offset.old sector.old result offset.new sector.new }
{
    let told = boundary_numbers::view_from(view);
    let placed = told.read_extent(image_size, first, count, buffer_size);
    let placement = placed.answer;
    give_placement(placement, offset, sector)
}

// Where in the host a write of such sizes finds its bytes. 18 closes the view's lock, as a write's does.
pub fn write_extent(
    view: &mut [u64; VIEW_SIZE],
    image_size: u64,
    first: u64,
    count: u64,
    buffer_size: u64,
    offset: &mut [u64; 1],
    sector: &mut [u64; 1],
) -> u64
    ensures { WriteExtentCall view.old image_size first count buffer_size offset.old sector.old result offset.new view.new sector.new }
{
    let told = boundary_numbers::view_from(view);
    let placed = told.write_extent(image_size, first, count, buffer_size);
    let placement = placed.answer;
    lock_after(give_placement(placement, offset, sector), view)
}

// Stores an offset, or the sector that a refusal names, and returns the number.
#[tactic(auto, unfolding(answers::specs::Answers::refusal_number, answers::specs::Answers::answer_sector, boundary_answers::specs::BoundaryAnswers::sector_left, crate::specs::BoundaryExtents::offset_left))]
fn give_placement(
    placement: Result<u64, Refusal>,
    offset: &mut [u64; 1],
    sector: &mut [u64; 1],
) -> u64
    ensures value { result ≡ refusal_number placement }
    ensures offset_after { offset.new ≡ offset_left placement offset.old }
    ensures sector_after { sector.new ≡ sector_left (answer_sector placement) sector.old }
{
    match placement {
        Ok(start) => {
            *offset = [start];
            0
        }
        Err(refusal) => give_refusal(refusal, sector),
    }
}
