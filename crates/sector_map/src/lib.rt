// The sector map of a volume: which sector of the host holds which of the volume's, and the way back. Sectors have
// 512 bytes. Every call takes a layout that anybody may have made up, and refuses 11 where it is not sound, then 16
// where a sector is not the volume's. Assumes nothing; no function has a `requires`.
#![tactic(auto)]

ghost use Rattle.std.specs.Prelude.{◌≡◌};
ghost use Rattle.sector_map.specs.SectorMap.{sector_count, host_sector, user_sector};

use answers::Refusal;
use layout::{Layout, SECTOR_SIZE};

// How many sectors a volume has.
#[tactic(auto, unfolding(crate::specs::SectorMap::sector_count, crate::specs::SectorMap::sectors))]
pub fn sector_count(layout: Layout) -> Result<u64, Refusal>
    ensures { result ≡ sector_count layout }
{
    if !layout::is_sound(layout) {
        return Err(Refusal::new(answers::UNSOUND));
    }
    Ok(layout.data_size / SECTOR_SIZE)
}

// The host sector that holds a user sector.
#[tactic(auto, unfolding(crate::specs::SectorMap::host_sector, crate::specs::SectorMap::first_sector, crate::specs::SectorMap::sectors))]
pub fn host_sector(layout: Layout, user: u64) -> Result<u64, Refusal>
    ensures { result ≡ host_sector layout user }
{
    if !layout::is_sound(layout) {
        return Err(Refusal::new(answers::UNSOUND));
    }
    if layout.data_size / SECTOR_SIZE <= user {
        return Err(Refusal::new(answers::OUTSIDE));
    }
    Ok(layout.data_start / SECTOR_SIZE + user)
}

// The user sector that a host sector holds.
#[tactic(auto, unfolding(crate::specs::SectorMap::user_sector, crate::specs::SectorMap::first_sector, crate::specs::SectorMap::sectors))]
pub fn user_sector(layout: Layout, host: u64) -> Result<u64, Refusal>
    ensures { result ≡ user_sector layout host }
{
    if !layout::is_sound(layout) {
        return Err(Refusal::new(answers::UNSOUND));
    }
    let first = layout.data_start / SECTOR_SIZE;
    if host < first {
        return Err(Refusal::new(answers::OUTSIDE));
    }
    let user = host - first;
    if layout.data_size / SECTOR_SIZE <= user {
        return Err(Refusal::new(answers::OUTSIDE));
    }
    Ok(user)
}
