// Where a volume lies in its host: the layout that opening gives, and the rules that a host's size
// and a data area keep. Assumes nothing; no function has a `requires`.
#![tactic(auto)]

ghost use Rattle.std.specs.Prelude.{◌≡◌};
ghost use Rattle.layout.specs.Rules.{host_size_rule, sector_size_rule, place_rule, sectors_rule, data_area_rule, sound};

// The kinds of a volume, as a layout has them.
pub const STANDARD: u64 = 0;

pub const HIDDEN: u64 = 1;

// A sector, whatever the disk's own have, and what the headers take at either end of the host.
pub const SECTOR_SIZE: u64 = 512;

pub const HEADERS_SIZE: u64 = 131_072;

// The smallest host has one sector between the headers; the largest is 1 PB.
pub const MIN_HOST_SIZE: u64 = 262_656;

pub const MAX_HOST_SIZE: u64 = 1_125_899_906_842_624;

// A volume's place in its host, as its header and the host's size tell it (RULES.md, Opening), with
// the rules' letters behind the names. A caller may make one up: nothing is assumed of the numbers, so kind and
// magic are no enums either. `is_sound` answers for each number, and claims speak of kinds and magics that are none.
#[derive(Clone, Copy)]
pub struct Layout {
    pub host_size: u64, // S
    pub kind: u64, // 0 standard, 1 hidden
    pub magic: u64, // 0 VERA, 1 TRUE
    pub version: u64,
    pub min_program_version: u64,
    pub data_start: u64, // O
    pub data_size: u64, // V
    pub candidate: u64, // the accepted one's index
    pub sector_size: u64, // Z
}

// Whether a host may have this size.
#[tactic(auto, unfolding(crate::specs::Rules::host_size_rule))]
pub fn is_host_size(host_size: u64) -> bool
    ensures { result ≡ host_size_rule host_size }
{
    host_size % SECTOR_SIZE == 0 && MIN_HOST_SIZE <= host_size && host_size <= MAX_HOST_SIZE
}

// Whether a disk's own sectors may have this size.
#[tactic(auto, unfolding(crate::specs::Rules::sector_size_rule))]
pub fn is_sector_size(size: u64) -> bool
    ensures { result ≡ sector_size_rule size }
{
    matches!(size, 512 | 1_024 | 2_048 | 4_096)
}

// Whether a layout's data area is one that its kind may have in its host.
#[tactic(auto, unfolding(crate::specs::Rules::data_area_rule))]
pub fn is_data_area(layout: Layout) -> bool
    ensures { result ≡ data_area_rule layout }
{
    is_of_sectors(layout) && is_in_place(layout)
}

// Whether a layout keeps the rules for its host's size and its data area, its sector size among them.
#[tactic(auto, unfolding(crate::specs::Rules::sound))]
pub fn is_sound(layout: Layout) -> bool
    ensures { result ≡ sound layout }
{
    is_host_size(layout.host_size) && is_data_area(layout)
}

// Whether the data area is not empty, and it, its start and the host are of whole sectors of the disk. A sector
// size is a power of two, so multiples of it have none of the bits below.
fn is_of_sectors(layout: Layout) -> bool
    ensures { result ≡ sectors_rule layout }
{
    if !is_sector_size(layout.sector_size) {
        return false;
    }
    if layout.data_size < SECTOR_SIZE {
        return false;
    }
    let below = layout.sector_size - 1;
    (layout.data_size | layout.data_start | layout.host_size) & below == 0
}

// Whether the data area lies where its kind's may.
fn is_in_place(layout: Layout) -> bool
    ensures { result ≡ place_rule layout }
{
    let start = layout.data_start;
    let Some(end) = start.checked_add(layout.data_size) else {
        return false;
    };
    let Some(backups) = layout.host_size.checked_sub(HEADERS_SIZE) else {
        return false;
    };
    match layout.kind {
        STANDARD => start == HEADERS_SIZE && end <= backups,
        HIDDEN => HEADERS_SIZE <= start && end <= backups,
        _ => false,
    }
}
