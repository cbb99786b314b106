// The static library: the functions of the crate ondristela, exported for C and Rust by their own names. Each hands
// on to the function of its name there, and has the same contract. include/ondristela.h declares them: a slice
// crosses as a pointer and then a length, an array as a pointer to its first number.
// Assumes nothing; no exported function has a `requires`.
#![tactic(auto)]

ghost use Rattle.std.specs.Prelude.{◌≡◌, length};
ghost use Rattle.answers.specs.Answers.{refusal_number};
ghost use Rattle.crc32.specs.Crc32.{crc32};
ghost use Rattle.locations.specs.Locations.{located};
ghost use Rattle.opening.specs.Opening.{opened};
ghost use Rattle.header_writing.specs.HeaderWriting.{asked_layout, header_answer, header_left};
ghost use Rattle.sector_map.specs.SectorMap.{host_sector, user_sector};
ghost use Rattle.tweaks.specs.Tweaks.{tweak_of};
ghost use Rattle.making.specs.Views.{plain_view, protected_view};
ghost use Rattle.boundary_numbers.specs.BoundaryNumbers.{layout_from, opened_left, viewed_left, block_left};
ghost use Rattle.boundary_answers.specs.BoundaryAnswers.{numbered_left};
ghost use Rattle.boundary_keys.specs.BoundaryKeys.{keys_left};
ghost use Rattle.boundary_access.specs.BoundaryAccess.{ReadCall, WriteCall};
ghost use Rattle.boundary_extents.specs.BoundaryExtents.{ReadExtentCall, WriteExtentCall};
ghost use Rattle.xts.specs.Units.{enciphered, deciphered};
ghost use Rattle.boundary_plaintext.specs.BoundaryPlaintext.{PlainReadCall, PlainWriteCall};

use boundary_numbers::{LAYOUT_SIZE, VIEW_SIZE};

#[unsafe(no_mangle)]
pub extern "C" fn ondristela_location(code: u8, host_size: u64, offset: &mut [u64; 1]) -> u64
    ensures value { result ≡ refusal_number (located code host_size) }
    ensures offset_after { offset.new ≡ numbered_left (located code host_size) offset.old }
{
    ondristela::ondristela_location(code, host_size, offset)
}

#[unsafe(no_mangle)]
pub extern "C" fn ondristela_open(
    candidates: &[u8],
    codes: &[u8],
    host_size: u64,
    layout: &mut [u64; LAYOUT_SIZE],
) -> u64
    ensures value { result ≡ refusal_number (opened candidates.now codes.now host_size) }
    ensures layout_after { layout.new ≡ opened_left (opened candidates.now codes.now host_size) layout.old }
{
    ondristela::ondristela_open(candidates, codes, host_size, layout)
}

#[unsafe(no_mangle)]
pub extern "C" fn ondristela_keys(
    candidates: &[u8],
    codes: &[u8],
    host_size: u64,
    range: &mut [u64; 2],
) -> u64
    ensures value { result ≡ refusal_number (opened candidates.now codes.now host_size) }
    ensures range_after { range.new ≡ keys_left (opened candidates.now codes.now host_size) range.old }
{
    ondristela::ondristela_keys(candidates, codes, host_size, range)
}

#[unsafe(no_mangle)]
pub extern "C" fn ondristela_write_header(
    magic: &[u8; 4],
    version: u16,
    min_program_version: u16,
    code: u8,
    host_size: u64,
    data_start: u64,
    data_size: u64,
    sector_size: u64,
    salt: &[u8],
    keys: &[u8],
    header: &mut [u8],
) -> u64
    ensures value { result ≡ refusal_number (header_answer code (asked_layout magic.now version min_program_version code host_size data_start data_size sector_size) (length salt.now) (length keys.now) (length header.old)) }
    ensures header_after { header.new ≡ header_left (header_answer code (asked_layout magic.now version min_program_version code host_size data_start data_size sector_size) (length salt.now) (length keys.now) (length header.old)) (asked_layout magic.now version min_program_version code host_size data_start data_size sector_size) salt.now keys.now header.old }
{
    ondristela::ondristela_write_header(
        magic,
        version,
        min_program_version,
        code,
        host_size,
        data_start,
        data_size,
        sector_size,
        salt,
        keys,
        header,
    )
}

#[unsafe(no_mangle)]
pub extern "C" fn ondristela_host_sector(
    layout: &[u64; LAYOUT_SIZE],
    user: u64,
    host: &mut [u64; 1],
) -> u64
    ensures value { result ≡ refusal_number (host_sector (layout_from layout.now) user) }
    ensures host_after { host.new ≡ numbered_left (host_sector (layout_from layout.now) user) host.old }
{
    ondristela::ondristela_host_sector(layout, user, host)
}

#[unsafe(no_mangle)]
pub extern "C" fn ondristela_user_sector(
    layout: &[u64; LAYOUT_SIZE],
    host: u64,
    user: &mut [u64; 1],
) -> u64
    ensures value { result ≡ refusal_number (user_sector (layout_from layout.now) host) }
    ensures user_after { user.new ≡ numbered_left (user_sector (layout_from layout.now) host) user.old }
{
    ondristela::ondristela_user_sector(layout, host, user)
}

#[unsafe(no_mangle)]
pub extern "C" fn ondristela_tweak(
    layout: &[u64; LAYOUT_SIZE],
    user: u64,
    block: &mut [u8; 16],
) -> u64
    ensures value { result ≡ refusal_number (tweak_of (layout_from layout.now) user).number }
    ensures block_after { block.new ≡ block_left (tweak_of (layout_from layout.now) user).number (tweak_of (layout_from layout.now) user).block block.old }
{
    ondristela::ondristela_tweak(layout, user, block)
}

#[unsafe(no_mangle)]
pub extern "C" fn ondristela_view_plain(
    layout: &[u64; LAYOUT_SIZE],
    view: &mut [u64; VIEW_SIZE],
) -> u64
    ensures value { result ≡ refusal_number (plain_view (layout_from layout.now)) }
    ensures view_after { view.new ≡ viewed_left (plain_view (layout_from layout.now)) view.old }
{
    ondristela::ondristela_view_plain(layout, view)
}

#[unsafe(no_mangle)]
pub extern "C" fn ondristela_view_protected(
    outer: &[u64; LAYOUT_SIZE],
    hidden: &[u64; LAYOUT_SIZE],
    view: &mut [u64; VIEW_SIZE],
) -> u64
    ensures value { result ≡ refusal_number (protected_view (layout_from outer.now) (layout_from hidden.now)) }
    ensures view_after { view.new ≡ viewed_left (protected_view (layout_from outer.now) (layout_from hidden.now)) view.old }
{
    ondristela::ondristela_view_protected(outer, hidden, view)
}

#[unsafe(no_mangle)]
pub extern "C" fn ondristela_read(
    view: &[u64; VIEW_SIZE],
    image: &[u8],
    first: u64,
    count: u64,
    buffer: &mut [u8],
    sector: &mut [u64; 1],
) -> u64
    ensures { ReadCall view.now image.now first count buffer.old sector.old result buffer.new sector.new }
{
    ondristela::ondristela_read(view, image, first, count, buffer, sector)
}

#[unsafe(no_mangle)]
pub extern "C" fn ondristela_write(
    view: &mut [u64; VIEW_SIZE],
    image: &mut [u8],
    first: u64,
    count: u64,
    buffer: &[u8],
    sector: &mut [u64; 1],
) -> u64
    ensures { WriteCall view.old image.old first count buffer.now sector.old result image.new view.new sector.new }
{
    ondristela::ondristela_write(view, image, first, count, buffer, sector)
}

#[unsafe(no_mangle)]
pub extern "C" fn ondristela_read_extent(
    view: &[u64; VIEW_SIZE],
    image_size: u64,
    first: u64,
    count: u64,
    buffer_size: u64,
    offset: &mut [u64; 1],
    sector: &mut [u64; 1],
) -> u64
    ensures { ReadExtentCall view.now image_size first count buffer_size offset.old sector.old result offset.new sector.new }
{
    ondristela::ondristela_read_extent(view, image_size, first, count, buffer_size, offset, sector)
}

#[unsafe(no_mangle)]
pub extern "C" fn ondristela_write_extent(
    view: &mut [u64; VIEW_SIZE],
    image_size: u64,
    first: u64,
    count: u64,
    buffer_size: u64,
    offset: &mut [u64; 1],
    sector: &mut [u64; 1],
) -> u64
    ensures { WriteExtentCall view.old image_size first count buffer_size offset.old sector.old result offset.new view.new sector.new }
{
    ondristela::ondristela_write_extent(view, image_size, first, count, buffer_size, offset, sector)
}

#[unsafe(no_mangle)]
pub extern "C" fn ondristela_encipher(key: &[u8; 64], tweak_number: u64, unit: &mut [u8; 512])
    ensures { unit.new ≡ enciphered key.now tweak_number unit.old }
{
    ondristela::ondristela_encipher(key, tweak_number, unit)
}

#[unsafe(no_mangle)]
pub extern "C" fn ondristela_decipher(key: &[u8; 64], tweak_number: u64, unit: &mut [u8; 512])
    ensures { unit.new ≡ deciphered key.now tweak_number unit.old }
{
    ondristela::ondristela_decipher(key, tweak_number, unit)
}

#[unsafe(no_mangle)]
pub extern "C" fn ondristela_read_plaintext(
    view: &[u64; VIEW_SIZE],
    key: &[u8; 64],
    image: &[u8],
    first: u64,
    count: u64,
    buffer: &mut [u8],
    sector: &mut [u64; 1],
) -> u64
    ensures { PlainReadCall view.now key.now image.now first count buffer.old sector.old result buffer.new sector.new }
{
    ondristela::ondristela_read_plaintext(view, key, image, first, count, buffer, sector)
}

#[unsafe(no_mangle)]
pub extern "C" fn ondristela_write_plaintext(
    view: &mut [u64; VIEW_SIZE],
    key: &[u8; 64],
    image: &mut [u8],
    first: u64,
    count: u64,
    buffer: &[u8],
    sector: &mut [u64; 1],
) -> u64
    ensures { PlainWriteCall view.old key.now image.old first count buffer.now sector.old result image.new view.new sector.new }
{
    ondristela::ondristela_write_plaintext(view, key, image, first, count, buffer, sector)
}

#[unsafe(no_mangle)]
pub extern "C" fn ondristela_crc32(bytes: &[u8]) -> u32
    ensures { result ≡ crc32 bytes.now }
{
    ondristela::ondristela_crc32(bytes)
}
