// Extents, runs of sectors with a first one and a count: the least sector that two of them share, and the first
// of one that lies past an end. No sum is made that could wrap. Assumes nothing; no function has a `requires`.
#![tactic(auto)]

ghost use Rattle.std.specs.Prelude.{◌≡◌, ◌+◌, leb};
ghost use Rattle.extent.specs.Extents.{has, overlap, beyond};

// So many sectors from the first one on. A caller may make one up, and its end may lie past 2^64.
#[derive(Clone, Copy, Debug, PartialEq, Eq)]
pub struct Extent {
    pub first: u64,
    pub count: u64,
}

// The least sector that two extents share: the larger of their first ones, if both have it.
pub fn first_shared(a: Extent, b: Extent) -> Option<u64>
    ensures { result ≡ overlap a b }
{
    let sector = a.first.max(b.first);
    (a.has(sector) && b.has(sector)).then_some(sector)
}

// The first sector of an extent at or past an end: the larger of its first one and the end, unless the
// extent ends by there. An extent of no sector that starts past the end has its first one for that.
pub fn first_past(extent: Extent, end: u64) -> Option<u64>
    ensures { result ≡ beyond extent end }
{
    (!extent.ends_by(end)).then_some(extent.first.max(end))
}

impl Extent {
    // Whether an extent has a sector.
    fn has(self, sector: u64) -> bool
        ensures { result ≡ has self sector }
    {
        self.first <= sector && sector - self.first < self.count
    }

    // Whether an extent ends by there.
    fn ends_by(self, end: u64) -> bool
        ensures { result ≡ leb (self.first + self.count) end }
    {
        match self.first.checked_add(self.count) {
            Some(past) => past <= end,
            None => false,
        }
    }
}
