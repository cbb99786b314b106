// The key bytes of an opening, over numbers and slices: returns 0 where it accepts, and else the refusal number and
// changes nothing.
// Assumes nothing; no public function has a `requires`.
#![tactic(auto)]

ghost use Rattle.answers.specs.Answers.{refusal_number};
ghost use Rattle.std.specs.Prelude.{◌≡◌, ◌≤◌};
ghost use Rattle.opening.specs.Opening.{opened};
ghost use Rattle.key_bytes.specs.KeyBytes.{keys_offset};
ghost use Rattle.boundary_keys.specs.BoundaryKeys.{keys_left};

use answers::Refusal;
use layout::Layout;

// Offset and length, within candidates, of the key bytes of the first candidate that is accepted.
pub fn keys(candidates: &[u8], codes: &[u8], host_size: u64, range: &mut [u64; 2]) -> u64
    ensures value { result ≡ refusal_number (opened candidates.now codes.now host_size) }
    ensures range_after { range.new ≡ keys_left (opened candidates.now codes.now host_size) range.old }
{
    give_keys(opening::open(candidates, codes, host_size), range)
}

// Stores where the key bytes of an opening stand. By a match: a function handed to `map` would have to ask of every
// layout that its offset fits.
fn give_keys(answer: Result<Layout, Refusal>, range: &mut [u64; 2]) -> u64
    requires { keys_offset answer ≤ 32768 }
    ensures value { result ≡ refusal_number answer }
    ensures range_after { range.new ≡ keys_left answer range.old }
{
    match answer {
        Ok(layout) => {
            let offset = layout.candidate * header_format::SIZE as u64 + header_format::KEYS as u64;
            *range = [offset, header_format::KEYS_SIZE as u64];
            0
        }
        Err(refusal) => u64::from(refusal.number),
    }
}
