// The tweaks of a volume's sectors: the number that each is enciphered with, and its block. Every call takes a layout that
// anybody may have made up, and refuses as the sector map does.
// Assumes nothing; no function has a `requires`.
#![tactic(auto)]

ghost use Rattle.std.specs.Prelude.{◌≡◌};
ghost use Rattle.tweaks.specs.Tweaks.{tweak_number, tweak_of};

use answers::Refusal;
use layout::Layout;

// A tweak's number, or the refusal, and its block beside it: sixteen zeros where it is refused, as the claim
// `no_block` in header_claims/specs/SectorMap.antt says.
#[derive(Clone, Copy)]
pub struct Tweak {
    pub number: Result<u64, Refusal>,
    pub block: [u8; 16],
}

// The tweak number of a user sector.
#[tactic(auto, unfolding(crate::specs::Tweaks::tweak_number))]
pub fn tweak_number(layout: Layout, user: u64) -> Result<u64, Refusal>
    ensures { result ≡ tweak_number layout user }
{
    sector_map::host_sector(layout, user)
}

// The tweak number of a user sector and its block.
pub fn tweak_block(layout: Layout, user: u64) -> Tweak
    ensures { result ≡ tweak_of layout user }
{
    let mut block = [0u8; 16];
    let number = tweak_number(layout, user);
    if let Ok(value) = number {
        number_writing::write_little_endian(value, &mut block);
    }
    Tweak { number, block }
}
