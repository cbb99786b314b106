// The key bytes of the candidate that opening accepts. Its two slices are those of the C call.
// Assumes nothing; no public function has a `requires`.
#![tactic(auto)]

ghost use Rattle.opening.specs.Opening.{opened};
ghost use Rattle.key_bytes.specs.KeyBytes.{KeyBytes};

use header_format::{KEYS, KEYS_SIZE, SIZE};

// The key bytes of the accepted candidate: a part of candidates itself, not a copy. Where opening
// refuses, the empty part at its start.
pub fn key_bytes<'a>(candidates: &'a [u8], codes: &[u8], host_size: u64) -> &'a [u8]
    ensures { KeyBytes (opened candidates.now codes.now host_size) candidates.now candidates.entry.ref_ptr result.now result.ref_ptr }
{
    let answer = opening::open(candidates, codes, host_size);
    let Ok(layout) = answer else {
        return &candidates[..0];
    };
    let keys = layout.candidate as usize * SIZE + KEYS;
    &candidates[keys..keys + KEYS_SIZE]
}
