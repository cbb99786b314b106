// Reads and writes of a volume's sectors, judged by lengths and numbers alone: the order of checks, and where
// in the host an accepted call finds its bytes.
// Assumes nothing; no public function has a `requires`.
#![tactic(auto)]

ghost use Rattle.std.specs.Prelude.{◌≡◌, true, ◌≤◌, Ok};
ghost use Rattle.layout.specs.Rules.{sector_size_rule, sound};
ghost use Rattle.sector_map.specs.SectorMap.{sectors};
ghost use Rattle.judgement.specs.Judging.{alignment_rule, read_answer, write_answer, end_answer, lock_answer};
ghost use Rattle.judgement.specs.Offsets.{extent_start, placed_by};

use answers::Refusal;
use extent::Extent;
use layout::{Layout, SECTOR_SIZE};
use protection::Protection;

// At most so many sectors in one call.
pub const MAX_COUNT: u64 = 128;

// Where in the host a read finds its bytes, for an image and a buffer of these sizes: the extent's first
// byte, or what the read is refused by. The lock and the protected range's place are not looked at.
// Layout, protection and lock are a view's: `View` stands above, since its methods have to stand beside it. First and
// count are the C call's.
pub fn read_extent(
    layout: Layout,
    protection: Protection,
    image_size: u64,
    first: u64,
    count: u64,
    buffer_size: u64,
) -> Result<u64, Refusal>
    ensures { result ≡ placed_by (read_answer layout protection image_size first count buffer_size) layout first }
{
    let call = Call {
        layout,
        protection,
        image_size,
        extent: Extent { first, count },
        buffer_size,
    };
    call.judge_read()?;
    Ok(extent_start(layout, first))
}

// Where in the host a write finds its bytes, or what the write is refused by.
pub fn write_extent(
    layout: Layout,
    protection: Protection,
    locked: bool,
    image_size: u64,
    first: u64,
    count: u64,
    buffer_size: u64,
) -> Result<u64, Refusal>
    ensures { result ≡ placed_by (write_answer layout protection locked image_size first count buffer_size) layout first }
{
    let call = Call {
        layout,
        protection,
        image_size,
        extent: Extent { first, count },
        buffer_size,
    };
    call.judge_write(locked)?;
    Ok(extent_start(layout, first))
}

// A read or a write as it is judged: the layout and what is protected in it, the image's size, the sectors asked for and
// the buffer's size.
#[derive(Clone, Copy)]
struct Call {
    layout: Layout,
    protection: Protection,
    image_size: u64,
    extent: Extent,
    buffer_size: u64,
}

impl Call {
    // What a read answers: the checks of every call.
    #[tactic(auto, unfolding(crate::specs::Judging::read_answer, crate::specs::Judging::checked))]
    fn judge_read(self) -> Result<(), Refusal>
        ensures { result ≡ read_answer self.layout self.protection self.image_size self.extent.first self.extent.count self.buffer_size }
    {
        if !protection::is_sound(self.layout, self.protection) {
            return Err(Refusal::new(answers::UNSOUND));
        }
        if self.image_size != self.layout.host_size {
            return Err(Refusal::new(answers::IMAGE_SIZE));
        }
        if MAX_COUNT < self.extent.count {
            return Err(Refusal::new(answers::COUNT));
        }
        if self.buffer_size != self.extent.count * SECTOR_SIZE {
            return Err(Refusal::new(answers::BUFFER_SIZE));
        }
        if !self.is_aligned() {
            return Err(Refusal::new(answers::UNALIGNED));
        }
        self.judge_end()
    }

    // What a write answers: the checks of every call, then 17 where the lock is closed, and 18 where the
    // extent has a protected sector, at the first one.
    fn judge_write(self, locked: bool) -> Result<(), Refusal>
        ensures { result ≡ write_answer self.layout self.protection locked self.image_size self.extent.first self.extent.count self.buffer_size }
    {
        self.judge_read()?;
        self.judge_lock(locked)
    }

    // Whether the extent is of whole sectors of the disk. Each is 1, 2, 4 or 8 sectors of 512 bytes, so multiples of
    // that have none of the bits below.
    fn is_aligned(self) -> bool
        requires { sector_size_rule self.layout.sector_size ≡ true }
        ensures { result ≡ alignment_rule self.layout self.extent.first self.extent.count }
    {
        let below = self.layout.sector_size / SECTOR_SIZE - 1;
        (self.extent.first | self.extent.count) & below == 0
    }

    // The last check of every call: 16 where the extent reaches past the volume's end, at its first such sector.
    fn judge_end(self) -> Result<(), Refusal>
        ensures { result ≡ end_answer self.layout self.extent.first self.extent.count (Ok tt) }
    {
        let past = extent::first_past(self.extent, self.layout.data_size / SECTOR_SIZE);
        match past {
            None => Ok(()),
            Some(sector) => Err(Refusal::at(answers::OUTSIDE, sector)),
        }
    }

    // The later checks of a write: the lock, and then the protected range.
    fn judge_lock(self, locked: bool) -> Result<(), Refusal>
        ensures { result ≡ lock_answer self.layout self.protection locked self.extent.first self.extent.count }
    {
        if locked {
            return Err(Refusal::new(answers::LOCKED));
        }
        let protected = protection::protected_extent(self.layout, self.protection);
        let shared = extent::first_shared(self.extent, protected);
        match shared {
            None => Ok(()),
            Some(sector) => Err(Refusal::at(answers::PROTECTED, sector)),
        }
    }
}

// The first byte of an extent in the host.
fn extent_start(layout: Layout, first: u64) -> u64
    requires layout_sound { sound layout ≡ true }
    requires first_bound { first ≤ sectors layout }
    ensures { result ≡ extent_start layout first }
{
    layout.data_start + first * SECTOR_SIZE
}
