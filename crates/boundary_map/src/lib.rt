// The sector map and its tweaks, over numbers and slices: each returns 0 where it accepts, and else the
// refusal number and changes nothing.
// Assumes nothing; no public function has a `requires`.
#![tactic(auto)]

ghost use Rattle.std.specs.Prelude.{◌≡◌};
ghost use Rattle.answers.specs.Answers.{refusal_number};
ghost use Rattle.sector_map.specs.SectorMap.{host_sector, user_sector};
ghost use Rattle.tweaks.specs.Tweaks.{tweak_of};
ghost use Rattle.boundary_numbers.specs.BoundaryNumbers.{layout_from, block_left};
ghost use Rattle.boundary_answers.specs.BoundaryAnswers.{numbered_left};

use boundary_numbers::LAYOUT_SIZE;
use tweaks::Tweak;

// The host sector that holds a user sector.
pub fn host_sector(layout: &[u64; LAYOUT_SIZE], user: u64, host: &mut [u64; 1]) -> u64
    ensures value { result ≡ refusal_number (host_sector (layout_from layout.now) user) }
    ensures host_after { host.new ≡ numbered_left (host_sector (layout_from layout.now) user) host.old }
{
    let told = boundary_numbers::layout_from(layout);
    boundary_answers::give_number(sector_map::host_sector(told, user), host)
}

// The user sector that a host sector holds.
pub fn user_sector(layout: &[u64; LAYOUT_SIZE], host: u64, user: &mut [u64; 1]) -> u64
    ensures value { result ≡ refusal_number (user_sector (layout_from layout.now) host) }
    ensures user_after { user.new ≡ numbered_left (user_sector (layout_from layout.now) host) user.old }
{
    let told = boundary_numbers::layout_from(layout);
    boundary_answers::give_number(sector_map::user_sector(told, host), user)
}

// The tweak block of a user sector.
pub fn tweak(layout: &[u64; LAYOUT_SIZE], user: u64, block: &mut [u8; 16]) -> u64
    ensures value { result ≡ refusal_number (tweak_of (layout_from layout.now) user).number }
    ensures block_after { block.new ≡ block_left (tweak_of (layout_from layout.now) user).number (tweak_of (layout_from layout.now) user).block block.old }
{
    let told = boundary_numbers::layout_from(layout);
    give_block(tweaks::tweak_block(told, user), block)
}

// Stores the block of a tweak.
#[tactic(auto, unfolding(answers::specs::Answers::refusal_number, boundary_numbers::specs::BoundaryNumbers::given_or, boundary_numbers::specs::BoundaryNumbers::block_left))]
fn give_block(tweak: Tweak, block: &mut [u8; 16]) -> u64
    ensures value { result ≡ refusal_number tweak.number }
    ensures block_after { block.new ≡ block_left tweak.number tweak.block block.old }
{
    let made = tweak.block;
    boundary_numbers::give(tweak.number.and(Ok(made)), block)
}
