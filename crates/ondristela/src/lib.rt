// The boundary for C and Rust, over numbers and slices: what the crate ondristela_c exports. Each function hands
// on to a function of another crate that has the same contract. Every function but the checksum's and the two for
// one unit returns 0 where it accepts, and else the refusal number. A refusal changes nothing that was passed for
// writing, but that 16 and 18 of reads, writes and their extents store the first user sector in the way, and 18
// closes the view's lock.
// Assumes nothing; no public function has a `requires`.
#![tactic(auto)]

ghost use Rattle.std.specs.Prelude.{◌≡◌, length};
ghost use Rattle.answers.specs.Answers.{refusal_number};
ghost use Rattle.crc32.specs.Crc32.{crc32};
ghost use Rattle.locations.specs.Locations.{located};
ghost use Rattle.opening.specs.Opening.{opened};
ghost use Rattle.header_writing.specs.HeaderWriting.{asked_layout, header_answer, header_left};
ghost use Rattle.sector_map.specs.SectorMap.{host_sector, user_sector};
ghost use Rattle.tweaks.specs.Tweaks.{tweak_of};
ghost use Rattle.making.specs.Views.{plain_view, protected_view};
ghost use Rattle.boundary_numbers.specs.BoundaryNumbers.{layout_from, opened_left, viewed_left, block_left};
ghost use Rattle.boundary_answers.specs.BoundaryAnswers.{numbered_left};
ghost use Rattle.boundary_keys.specs.BoundaryKeys.{keys_left};
ghost use Rattle.boundary_access.specs.BoundaryAccess.{ReadCall, WriteCall};
ghost use Rattle.boundary_extents.specs.BoundaryExtents.{ReadExtentCall, WriteExtentCall};
ghost use Rattle.xts.specs.Units.{enciphered, deciphered};
ghost use Rattle.boundary_plaintext.specs.BoundaryPlaintext.{PlainReadCall, PlainWriteCall};

use boundary_numbers::{LAYOUT_SIZE, VIEW_SIZE};

// Where the header of a location code lies in a host of this size.
pub fn ondristela_location(code: u8, host_size: u64, offset: &mut [u64; 1]) -> u64
    ensures value { result ≡ refusal_number (located code host_size) }
    ensures offset_after { offset.new ≡ numbered_left (located code host_size) offset.old }
{
    boundary_opening::location(code, host_size, offset)
}

// The layout of the first candidate that is accepted. candidates holds deciphered headers of 512
// bytes, codes a location code for each.
pub fn ondristela_open(
    candidates: &[u8],
    codes: &[u8],
    host_size: u64,
    layout: &mut [u64; LAYOUT_SIZE],
) -> u64
    ensures value { result ≡ refusal_number (opened candidates.now codes.now host_size) }
    ensures layout_after { layout.new ≡ opened_left (opened candidates.now codes.now host_size) layout.old }
{
    boundary_opening::open(candidates, codes, host_size, layout)
}

// Offset and length, within candidates, of the key bytes of the first candidate that is accepted.
pub fn ondristela_keys(candidates: &[u8], codes: &[u8], host_size: u64, range: &mut [u64; 2]) -> u64
    ensures value { result ≡ refusal_number (opened candidates.now codes.now host_size) }
    ensures range_after { range.new ≡ keys_left (opened candidates.now codes.now host_size) range.old }
{
    boundary_keys::keys(candidates, codes, host_size, range)
}

// Writes the header of a volume, for a location code and a host's size, over all of header.
pub fn ondristela_write_header(
    magic: &[u8; 4],
    version: u16,
    min_program_version: u16,
    code: u8,
    host_size: u64,
    data_start: u64,
    data_size: u64,
    sector_size: u64,
    salt: &[u8],
    keys: &[u8],
    header: &mut [u8],
) -> u64
    ensures value { result ≡ refusal_number (header_answer code (asked_layout magic.now version min_program_version code host_size data_start data_size sector_size) (length salt.now) (length keys.now) (length header.old)) }
    ensures header_after { header.new ≡ header_left (header_answer code (asked_layout magic.now version min_program_version code host_size data_start data_size sector_size) (length salt.now) (length keys.now) (length header.old)) (asked_layout magic.now version min_program_version code host_size data_start data_size sector_size) salt.now keys.now header.old }
{
    boundary_headers::write_header(
        magic,
        version,
        min_program_version,
        code,
        host_size,
        data_start,
        data_size,
        sector_size,
        salt,
        keys,
        header,
    )
}

// The host sector that holds a user sector.
pub fn ondristela_host_sector(layout: &[u64; LAYOUT_SIZE], user: u64, host: &mut [u64; 1]) -> u64
    ensures value { result ≡ refusal_number (host_sector (layout_from layout.now) user) }
    ensures host_after { host.new ≡ numbered_left (host_sector (layout_from layout.now) user) host.old }
{
    boundary_map::host_sector(layout, user, host)
}

// The user sector that a host sector holds.
pub fn ondristela_user_sector(layout: &[u64; LAYOUT_SIZE], host: u64, user: &mut [u64; 1]) -> u64
    ensures value { result ≡ refusal_number (user_sector (layout_from layout.now) host) }
    ensures user_after { user.new ≡ numbered_left (user_sector (layout_from layout.now) host) user.old }
{
    boundary_map::user_sector(layout, host, user)
}

// The tweak block of a user sector.
pub fn ondristela_tweak(layout: &[u64; LAYOUT_SIZE], user: u64, block: &mut [u8; 16]) -> u64
    ensures value { result ≡ refusal_number (tweak_of (layout_from layout.now) user).number }
    ensures block_after { block.new ≡ block_left (tweak_of (layout_from layout.now) user).number (tweak_of (layout_from layout.now) user).block block.old }
{
    boundary_map::tweak(layout, user, block)
}

// A view of a volume alone, its lock open.
pub fn ondristela_view_plain(layout: &[u64; LAYOUT_SIZE], view: &mut [u64; VIEW_SIZE]) -> u64
    ensures value { result ≡ refusal_number (plain_view (layout_from layout.now)) }
    ensures view_after { view.new ≡ viewed_left (plain_view (layout_from layout.now)) view.old }
{
    boundary_views::plain(layout, view)
}

// A view of an outer volume whose writes may not touch a hidden volume's data area, its lock open.
pub fn ondristela_view_protected(
    outer: &[u64; LAYOUT_SIZE],
    hidden: &[u64; LAYOUT_SIZE],
    view: &mut [u64; VIEW_SIZE],
) -> u64
    ensures value { result ≡ refusal_number (protected_view (layout_from outer.now) (layout_from hidden.now)) }
    ensures view_after { view.new ≡ viewed_left (protected_view (layout_from outer.now) (layout_from hidden.now)) view.old }
{
    boundary_views::protected(outer, hidden, view)
}

// Copies count sectors, from user sector first on, out of the image and fills the buffer with them.
pub fn ondristela_read(
    view: &[u64; VIEW_SIZE],
    image: &[u8],
    first: u64,
    count: u64,
    buffer: &mut [u8],
    sector: &mut [u64; 1],
) -> u64
    ensures { ReadCall view.now image.now first count buffer.old sector.old result buffer.new sector.new }
{
    boundary_access::read(view, image, first, count, buffer, sector)
}

// Copies the buffer into the image's sectors, from user sector first on. 18 closes the view's lock.
pub fn ondristela_write(
    view: &mut [u64; VIEW_SIZE],
    image: &mut [u8],
    first: u64,
    count: u64,
    buffer: &[u8],
    sector: &mut [u64; 1],
) -> u64
    ensures { WriteCall view.old image.old first count buffer.now sector.old result image.new view.new sector.new }
{
    boundary_access::write(view, image, first, count, buffer, sector)
}

// Where in the host a read of such sizes finds its bytes: the extent's first byte.
pub fn ondristela_read_extent(
    view: &[u64; VIEW_SIZE],
    image_size: u64,
    first: u64,
    count: u64,
    buffer_size: u64,
    offset: &mut [u64; 1],
    sector: &mut [u64; 1],
) -> u64
    ensures { ReadExtentCall view.now image_size first count buffer_size offset.old sector.old result offset.new sector.new }
{
    boundary_extents::read_extent(view, image_size, first, count, buffer_size, offset, sector)
}

// Where in the host a write of such sizes finds its bytes. 18 closes the view's lock, as a write's does.
pub fn ondristela_write_extent(
    view: &mut [u64; VIEW_SIZE],
    image_size: u64,
    first: u64,
    count: u64,
    buffer_size: u64,
    offset: &mut [u64; 1],
    sector: &mut [u64; 1],
) -> u64
    ensures { WriteExtentCall view.old image_size first count buffer_size offset.old sector.old result offset.new view.new sector.new }
{
    boundary_extents::write_extent(view, image_size, first, count, buffer_size, offset, sector)
}

// Enciphers a unit of 512 bytes in its place: AES-256 in XTS. The first 32 bytes of the key are for the
// data, the next 32 for the tweak.
pub fn ondristela_encipher(key: &[u8; 64], tweak_number: u64, unit: &mut [u8; 512])
    ensures { unit.new ≡ enciphered key.now tweak_number unit.old }
{
    boundary_units::encipher(key, tweak_number, unit)
}

// Deciphers a unit of 512 bytes in its place.
pub fn ondristela_decipher(key: &[u8; 64], tweak_number: u64, unit: &mut [u8; 512])
    ensures { unit.new ≡ deciphered key.now tweak_number unit.old }
{
    boundary_units::decipher(key, tweak_number, unit)
}

// Fills the buffer with count sectors of the image, from user sector first on, each deciphered.
pub fn ondristela_read_plaintext(
    view: &[u64; VIEW_SIZE],
    key: &[u8; 64],
    image: &[u8],
    first: u64,
    count: u64,
    buffer: &mut [u8],
    sector: &mut [u64; 1],
) -> u64
    ensures { PlainReadCall view.now key.now image.now first count buffer.old sector.old result buffer.new sector.new }
{
    boundary_plaintext::read(view, key, image, first, count, buffer, sector)
}

// Enciphers the buffer's sectors into the image, from user sector first on. 18 closes the view's lock.
pub fn ondristela_write_plaintext(
    view: &mut [u64; VIEW_SIZE],
    key: &[u8; 64],
    image: &mut [u8],
    first: u64,
    count: u64,
    buffer: &[u8],
    sector: &mut [u64; 1],
) -> u64
    ensures { PlainWriteCall view.old key.now image.old first count buffer.now sector.old result image.new view.new sector.new }
{
    boundary_plaintext::write(view, key, image, first, count, buffer, sector)
}

// CRC-32 of ITU-T V.42.
pub fn ondristela_crc32(bytes: &[u8]) -> u32
    ensures { result ≡ crc32 bytes.now }
{
    crc32::checksum(bytes)
}
