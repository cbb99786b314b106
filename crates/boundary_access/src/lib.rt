// Reads and writes on a view, over numbers and slices, as C passes them: each returns 0 where it accepts, and else the
// refusal number and changes nothing, but that 16 and 18 store the first user sector in the way, and 18 closes the view's lock.
// Assumes nothing; no public function has a `requires`.
#![tactic(auto)]

ghost use Rattle.boundary_access.specs.BoundaryAccess.{ReadCall, WriteCall};

use boundary_answers::{give_answer, lock_after};
use boundary_numbers::VIEW_SIZE;

// Copies count sectors, from user sector first on, out of the image and fills the buffer with them.
pub fn read(
    view: &[u64; VIEW_SIZE],
    image: &[u8],
    first: u64,
    count: u64,
    buffer: &mut [u8],
    sector: &mut [u64; 1],
) -> u64
    ensures { ReadCall view.now image.now first count buffer.old sector.old result buffer.new sector.new }
{
    let told = boundary_numbers::view_from(view);
    let outcome = told.read(image, first, count, buffer);
    let answer = outcome.answer;
    give_answer(answer, sector)
}

// Copies the buffer into the image's sectors, from user sector first on. 18 closes the view's lock.
pub fn write(
    view: &mut [u64; VIEW_SIZE],
    image: &mut [u8],
    first: u64,
    count: u64,
    buffer: &[u8],
    sector: &mut [u64; 1],
) -> u64
    ensures { WriteCall view.old image.old first count buffer.now sector.old result image.new view.new sector.new }
{
    let told = boundary_numbers::view_from(view);
    let outcome = told.write(image, first, count, buffer);
    let answer = outcome.answer;
    lock_after(give_answer(answer, sector), view)
}
