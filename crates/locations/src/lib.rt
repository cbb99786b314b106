// Where the headers of a volume lie in its host, and the kind of volume that each makes.
// Assumes nothing; no function has a `requires`.
#![tactic(auto)]

ghost use Rattle.std.specs.Prelude.{◌≡◌};
ghost use Rattle.locations.specs.Locations.{located};

use answers::Refusal;

// The largest location code.
pub const MAX_CODE: u8 = 3;

// The end of the host that a distance counts from.
#[derive(Clone, Copy)]
pub enum Origin {
    HostStart,
    HostEnd,
}

// A header location (RULES.md, Header locations), and the kind of volume that a header there makes: a number, as
// `header::judge` takes it, which answers for any.
#[derive(Clone, Copy)]
pub struct Location {
    pub distance: u64,
    pub origin: Origin,
    pub kind: u64,
}

// The four header locations, by location code: for whoever looks for a header, or writes one.
pub const LOCATIONS: [Location; 4] = [
    Location {
        distance: 0,
        origin: Origin::HostStart,
        kind: layout::STANDARD,
    },
    Location {
        distance: 65_536,
        origin: Origin::HostStart,
        kind: layout::HIDDEN,
    },
    Location {
        distance: 131_072,
        origin: Origin::HostEnd,
        kind: layout::STANDARD,
    },
    Location {
        distance: 65_536,
        origin: Origin::HostEnd,
        kind: layout::HIDDEN,
    },
];

// Where the header of a location code lies in a host of this size. Refuses 2 for a code above 3,
// then 3 for the size.
#[tactic(auto, unfolding(crate::specs::Locations::located, crate::specs::Locations::code_rule, crate::specs::Locations::location_of, crate::specs::Locations::locations, crate::specs::Locations::offset_from))]
pub fn locate(code: u8, host_size: u64) -> Result<u64, Refusal>
    ensures { result ≡ located code host_size }
{
    if MAX_CODE < code {
        return Err(Refusal::new(answers::CODE));
    }
    if !layout::is_host_size(host_size) {
        return Err(Refusal::new(answers::HOST_SIZE));
    }
    let location = LOCATIONS[code as usize];
    Ok(match location.origin {
        Origin::HostStart => location.distance,
        Origin::HostEnd => host_size - location.distance,
    })
}
