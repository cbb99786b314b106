// Reads and writes of plaintext on a view with a borrowed key, over numbers and slices, as C passes them: answers,
// sectors and locks as those of raw ones.
// Assumes nothing; no public function has a `requires`.
#![tactic(auto)]

ghost use Rattle.boundary_plaintext.specs.BoundaryPlaintext.{PlainReadCall, PlainWriteCall};

use boundary_answers::{give_answer, lock_after};
use boundary_numbers::VIEW_SIZE;
use plaintext::KeyedView;

// Fills the buffer with count sectors of the image, from user sector first on, each deciphered.
pub fn read(
    view: &[u64; VIEW_SIZE],
    key: &[u8; 64],
    image: &[u8],
    first: u64,
    count: u64,
    buffer: &mut [u8],
    sector: &mut [u64; 1],
) -> u64
    ensures { PlainReadCall view.now key.now image.now first count buffer.old sector.old result buffer.new sector.new }
{
    let told = boundary_numbers::view_from(view);
    let key = *key;
    let keyed = KeyedView { view: told, key };
    let outcome = keyed.read(image, first, count, buffer);
    let answer = outcome.answer;
    give_answer(answer, sector)
}

// Enciphers the buffer's sectors into the image, from user sector first on. 18 closes the view's lock.
pub fn write(
    view: &mut [u64; VIEW_SIZE],
    key: &[u8; 64],
    image: &mut [u8],
    first: u64,
    count: u64,
    buffer: &[u8],
    sector: &mut [u64; 1],
) -> u64
    ensures { PlainWriteCall view.old key.now image.old first count buffer.now sector.old result image.new view.new sector.new }
{
    let told = boundary_numbers::view_from(view);
    let key = *key;
    let keyed = KeyedView { view: told, key };
    let outcome = keyed.write(image, first, count, buffer);
    let answer = outcome.answer;
    lock_after(give_answer(answer, sector), view)
}
