// The 512 bytes of a deciphered header: whether they are one, and the first rule that they break.
// Assumes nothing; no public function has a `requires`.
#![tactic(auto)]

ghost use Rattle.std.specs.Prelude.{true, ◌≡◌, ◌≤◌};
ghost use Rattle.fields.specs.Bytes.{field_part};
ghost use Rattle.numbers.specs.Numbers.{big_endian};
ghost use Rattle.header.specs.Header.{magic_of, fields_of, checksums_match, is_header};
ghost use Rattle.header.specs.Header.{reserved_rule, hidden_size_rule, area_rule};
ghost use Rattle.header.specs.Header.{accepted_layout, judge as judgement};

use answers::Refusal;
use fields::Field;
use header_format::{Fields, places};
use layout::Layout;

// Judges one candidate for a kind of volume and a host's size. A layout carries index as the
// candidate's. Fewer or more than 512 bytes are no header.
#[tactic(auto, unfolding(crate::specs::Header::judge))]
pub fn judge(candidate: &[u8], kind: u64, host_size: u64, index: u64) -> Result<Layout, Refusal>
    ensures { result ≡ judgement kind host_size index candidate.now }
{
    if !is_header(candidate) {
        return Err(Refusal::new(answers::NO_HEADER));
    }
    first_broken(candidate, kind, host_size, index)
}

// Whether the candidate is a header; only 512 bytes are.
#[tactic(auto, unfolding(crate::specs::Header::is_header))]
fn is_header(candidate: &[u8]) -> bool
    ensures { result ≡ is_header candidate.now }
{
    candidate.len() == header_format::SIZE
        && magic_of(candidate) <= header_format::TRUE
        && checksums_match(candidate)
}

fn magic_of(candidate: &[u8]) -> u64
    ensures { result ≡ magic_of candidate.now }
{
    header_format::magic_number(fields::field_bytes(candidate, places::MAGIC))
}

// The salt, bytes 0 to 63, is in neither checksum.
#[tactic(auto, unfolding(crate::specs::Header::checksums_match))]
fn checksums_match(candidate: &[u8]) -> bool
    ensures { result ≡ checksums_match candidate.now }
{
    let checksums = crc32::checksum_pair(
        fields::field_bytes(candidate, places::KEYS),
        fields::field_bytes(candidate, places::CHECKED),
    );
    u64::from(checksums[0]) == number(candidate, places::KEY_CHECKSUM)
        && u64::from(checksums[1]) == number(candidate, places::HEADER_CHECKSUM)
}

// The number in a field of at most eight bytes.
fn number(candidate: &[u8], field: Field) -> u64
    requires { field.size ≤ 8 }
    ensures { result ≡ big_endian (field_part field candidate.now) }
{
    numbers::read_big_endian(fields::field_bytes(candidate, field))
}

fn read_fields(candidate: &[u8]) -> Fields
    ensures { result ≡ fields_of candidate.now }
{
    Fields {
        version: number(candidate, places::VERSION),
        min_program_version: number(candidate, places::MIN_PROGRAM_VERSION),
        hidden_size: number(candidate, places::HIDDEN_SIZE),
        data_size: number(candidate, places::DATA_SIZE),
        data_start: number(candidate, places::DATA_START),
        encrypted_size: number(candidate, places::ENCRYPTED_SIZE),
        flags: number(candidate, places::FLAGS),
        sector_size: number(candidate, places::SECTOR_SIZE),
    }
}

// Judges a header by the first rule that it breaks.
#[tactic(auto, unfolding(crate::specs::Header::judge, crate::specs::Header::flags_rule))]
fn first_broken(candidate: &[u8], kind: u64, host_size: u64, index: u64) -> Result<Layout, Refusal>
    requires { is_header candidate.now ≡ true }
    ensures { result ≡ judgement kind host_size index candidate.now }
{
    let magic = magic_of(candidate);
    let fields = read_fields(candidate);
    if !header_format::keeps_version(magic, fields.version) {
        return Err(Refusal::new(answers::VERSION));
    }
    if !keeps_reserved(candidate, magic, fields.flags) {
        return Err(Refusal::new(answers::RESERVED));
    }
    if fields.flags % 4 != 0 {
        return Err(Refusal::new(answers::FLAGS));
    }
    if !layout::is_sector_size(fields.sector_size) {
        return Err(Refusal::new(answers::SECTOR_SIZE));
    }
    if !keeps_hidden_size(kind, fields.hidden_size, fields.data_size) {
        return Err(Refusal::new(answers::HIDDEN_SIZE));
    }
    let layout = accepted_layout(fields, magic, kind, host_size, index);
    if !keeps_area(layout, fields.encrypted_size) {
        return Err(Refusal::new(answers::DATA_AREA));
    }
    Ok(layout)
}

// The bytes that VERA reserves are unused in TRUE, and not looked at.
#[tactic(auto, unfolding(crate::specs::Header::reserved_rule))]
fn keeps_reserved(candidate: &[u8], magic: u64, flags: u64) -> bool
    ensures { result ≡ reserved_rule magic flags candidate.now }
{
    flags / 4 == 0
        && (magic != header_format::VERA
            || byte_tests::is_zero(fields::field_bytes(candidate, places::RESERVED))
                && byte_tests::is_zero(fields::field_bytes(candidate, places::MORE_RESERVED)))
}

#[tactic(auto, unfolding(crate::specs::Header::hidden_size_rule))]
fn keeps_hidden_size(kind: u64, hidden_size: u64, data_size: u64) -> bool
    ensures { result ≡ hidden_size_rule kind hidden_size data_size }
{
    match kind {
        layout::STANDARD => hidden_size == 0,
        layout::HIDDEN => hidden_size != 0 && hidden_size == data_size,
        _ => false,
    }
}

#[tactic(auto, unfolding(crate::specs::Header::area_rule))]
fn keeps_area(layout: Layout, encrypted_size: u64) -> bool
    ensures { result ≡ area_rule layout encrypted_size }
{
    encrypted_size == layout.data_size && layout::is_data_area(layout)
}

#[tactic(auto, unfolding(crate::specs::Header::accepted_layout))]
fn accepted_layout(fields: Fields, magic: u64, kind: u64, host_size: u64, index: u64) -> Layout
    ensures { result ≡ accepted_layout kind host_size index magic fields }
{
    Layout {
        host_size,
        kind,
        magic,
        version: fields.version,
        min_program_version: fields.min_program_version,
        data_start: fields.data_start,
        data_size: fields.data_size,
        candidate: index,
        sector_size: fields.sector_size,
    }
}
