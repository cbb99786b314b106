// What a view's writes may not touch: the rule for a protected range, and its user sectors. No sum is made
// that could wrap. Assumes nothing; no function has a `requires`.
#![tactic(auto)]

ghost use Rattle.std.specs.Prelude.{◌≡◌, Some};
ghost use Rattle.protection.specs.Protection.{protection_rule, sound_protection, protected_extent};

use extent::Extent;
use layout::{Layout, SECTOR_SIZE};

// Nothing, or the bytes of the host from the first number up to, not including, the second. A caller may make
// one up: nothing is assumed of the numbers.
pub type Protection = Option<(u64, u64)>;

// Whether a layout is sound, and what is protected in it lies in its data area.
#[tactic(auto, unfolding(crate::specs::Protection::sound_protection, crate::specs::Protection::protection_rule))]
pub fn is_sound(layout: Layout, protection: Protection) -> bool
    ensures { result ≡ sound_protection layout protection }
{
    layout::is_sound(layout)
        && match protection {
            None => true,
            Some((start, end)) => is_range(layout, start, end),
        }
}

// What is protected, as user sectors of the layout: an empty extent where nothing is.
#[tactic(auto, unfolding(crate::specs::Protection::protected_extent))]
pub fn protected_extent(layout: Layout, protection: Protection) -> Extent
    ensures { result ≡ protected_extent layout protection }
{
    match protection {
        None => Extent { first: 0, count: 0 },
        Some((start, end)) => Extent {
            first: start.saturating_sub(layout.data_start) / SECTOR_SIZE,
            count: end.saturating_sub(start) / SECTOR_SIZE,
        },
    }
}

// Whether a range may be protected in a volume.
#[tactic(auto, using(crate::proofs::ProtectionLaws::range_by_end), unfolding(crate::specs::Protection::protection_rule))]
fn is_range(layout: Layout, start: u64, end: u64) -> bool
    ensures { result ≡ protection_rule layout (Some (start, end)) }
{
    layout.kind == layout::STANDARD
        && start % SECTOR_SIZE == 0
        && end % SECTOR_SIZE == 0
        && start < end
        && layout.data_start <= start
        && end - layout.data_start <= layout.data_size
}
