// The map program's input: the host's size, a location code and one candidate.
// Assumes nothing; no function has a `requires`.
#![tactic(auto)]

ghost use Rattle.std.specs.Prelude.{◌≡◌};
ghost use Rattle.map_input.specs.MapInput.{opened_input};

use answers::Refusal;
use layout::Layout;

// Where each part stands.
const HOST_SIZE: usize = 0;

const CODE: usize = 8;

const CANDIDATE: usize = 9;

// The size of the whole input.
pub const SIZE: usize = 521;

// Opens the one candidate of the input. Fewer or more than 521 bytes are refused 1.
#[tactic(auto, unfolding(crate::specs::MapInput::opened_input))]
pub fn open_input(input: &[u8]) -> Result<Layout, Refusal>
    ensures { result ≡ opened_input input.now }
{
    if input.len() != SIZE {
        return Err(Refusal::new(answers::LENGTHS));
    }
    let host_size = numbers::read_big_endian(&input[HOST_SIZE..CODE]);
    opening::open(&input[CANDIDATE..SIZE], &input[CODE..CANDIDATE], host_size)
}
