// A new header: its 512 bytes, laid field by field from a layout, a salt and keys.
// Assumes nothing; no public function has a `requires`.
#![tactic(auto)]

ghost use Rattle.std.specs.Prelude.{◌≡◌, ◌+◌, ◌≤◌, length};
ghost use Rattle.fields.specs.Bytes.{overlay};
ghost use Rattle.numbers.specs.Numbers.{big_endian_bytes};
ghost use Rattle.new_header.specs.NewHeader.{magic_bytes, new_fields, number_contents, laid};
ghost use Rattle.new_header.specs.NewHeader.{summed, new_header, header_over};

use fields::Field;
use header_format::{Fields, KEYS_SIZE, SALT_SIZE, SIZE, places};
use layout::Layout;

// Lays the header of a layout, with a salt and keys, over all of header. Both checksums are made, and what no
// field takes is zero. Does nothing where a length is wrong.
pub fn lay(layout: Layout, salt: &[u8], keys: &[u8], header: &mut [u8])
    ensures { header.new ≡ header_over layout salt.now keys.now header.old }
{
    let Some(salt) = salt.as_array() else {
        return;
    };
    let Some(keys) = keys.as_array() else {
        return;
    };
    if let Some(header) = header.as_mut_array() {
        fill(layout, salt, keys, header);
    }
}

// Lays all fields over zeros, the checksums last.
fn fill(layout: Layout, salt: &[u8; SALT_SIZE], keys: &[u8; KEYS_SIZE], header: &mut [u8; SIZE])
    ensures { header.new ≡ new_header layout salt.now keys.now }
{
    header.fill(0);
    put(header, places::SALT.offset, salt);
    put(header, places::MAGIC.offset, &magic_bytes(layout.magic));
    put(header, places::KEYS.offset, keys);
    put_numbers(header, new_fields(layout));
    put_checksum(header, places::KEYS, places::KEY_CHECKSUM);
    put_checksum(header, places::CHECKED, places::HEADER_CHECKSUM);
}

fn magic_bytes(magic: u64) -> [u8; 4]
    ensures { result ≡ magic_bytes magic }
{
    if magic == header_format::VERA {
        header_format::VERA_MAGIC
    } else {
        header_format::TRUE_MAGIC
    }
}

fn new_fields(layout: Layout) -> Fields
    ensures { result ≡ new_fields layout }
{
    Fields {
        version: layout.version,
        min_program_version: layout.min_program_version,
        hidden_size: hidden_size(layout),
        data_size: layout.data_size,
        data_start: layout.data_start,
        encrypted_size: layout.data_size,
        flags: 0,
        sector_size: layout.sector_size,
    }
}

fn hidden_size(layout: Layout) -> u64
    ensures { result ≡ (new_fields layout).hidden_size }
{
    if layout.kind == layout::HIDDEN {
        layout.data_size
    } else {
        0
    }
}

// Lays bytes over the header's from an offset on. A function and no method: a struct would hold a copy, which leaves
// keys on the stack, or a reference, and each method would have to promise that it stays the same.
fn put(header: &mut [u8; SIZE], offset: usize, content: &[u8])
    requires { offset + length content.now ≤ 512 }
    ensures { header.new ≡ overlay offset content.now header.old }
{
    copy::lay(content, header, offset);
}

// Lays the fields that hold numbers.
fn put_numbers(header: &mut [u8; SIZE], fields: Fields)
    ensures { header.new ≡ laid (number_contents fields) header.old }
{
    put_number(header, places::VERSION, fields.version);
    put_number(
        header,
        places::MIN_PROGRAM_VERSION,
        fields.min_program_version,
    );
    put_number(header, places::HIDDEN_SIZE, fields.hidden_size);
    put_number(header, places::DATA_SIZE, fields.data_size);
    put_number(header, places::DATA_START, fields.data_start);
    put_number(header, places::ENCRYPTED_SIZE, fields.encrypted_size);
    put_number(header, places::FLAGS, fields.flags);
    put_number(header, places::SECTOR_SIZE, fields.sector_size);
}

// Spells a number in a field.
fn put_number(header: &mut [u8; SIZE], field: Field, number: u64)
    requires { field.offset + field.size ≤ 512 }
    ensures { header.new ≡ overlay field.offset (big_endian_bytes field.size number) header.old }
{
    let start = field.offset;
    let end = start + field.size;
    number_writing::write_big_endian(number, &mut header[start..end]);
}

// Spells the checksum of one field in another.
fn put_checksum(header: &mut [u8; SIZE], of: Field, into: Field)
    requires { into.offset + into.size ≤ 512 }
    ensures { header.new ≡ summed of into header.old }
{
    let checksum = crc32::checksum(fields::field_bytes(header, of));
    put_number(header, into, u64::from(checksum));
}
