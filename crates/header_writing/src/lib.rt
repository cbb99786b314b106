// Writing a header: 512 deciphered bytes that opening accepts, from a volume's numbers, its salt and its keys.
// Assumes nothing; no public function has a `requires`.
#![tactic(auto)]

ghost use Rattle.std.specs.Prelude.{◌≡◌, length};
ghost use Rattle.locations.specs.Locations.{location_of};
ghost use Rattle.header_writing.specs.HeaderWriting.{asked_layout, header_answer, header_left};

use answers::Refusal;
use layout::Layout;

// Writes the header of a volume, for a location code and a host's size, over all of header. Both checksums are
// made, and what no field takes is zero. A refusal leaves header as it was: 1 for the length of salt, keys or
// header, 19 for the magic, and then 2, 3, 5, 8 and 10 as opening would. The arguments are those of the C call.
pub fn write(
    magic: [u8; 4],
    version: u16,
    min_program_version: u16,
    code: u8,
    host_size: u64,
    data_start: u64,
    data_size: u64,
    sector_size: u64,
    salt: &[u8],
    keys: &[u8],
    header: &mut [u8],
) -> Result<(), Refusal>
    ensures value { result ≡ header_answer code (asked_layout magic version min_program_version code host_size data_start data_size sector_size) (length salt.now) (length keys.now) (length header.old) }
    ensures header_after { header.new ≡ header_left result (asked_layout magic version min_program_version code host_size data_start data_size sector_size) salt.now keys.now header.old }
{
    let layout = Layout {
        host_size,
        kind: kind_of(code),
        magic: header_format::magic_number(&magic),
        version: u64::from(version),
        min_program_version: u64::from(min_program_version),
        data_start,
        data_size,
        candidate: 0,
        sector_size,
    };
    write_layout(layout, code, salt, keys, header)
}

// Judges what is asked for, and writes it.
fn write_layout(
    layout: Layout,
    code: u8,
    salt: &[u8],
    keys: &[u8],
    header: &mut [u8],
) -> Result<(), Refusal>
    ensures value { result ≡ header_answer code layout (length salt.now) (length keys.now) (length header.old) }
    ensures header_after { header.new ≡ header_left result layout salt.now keys.now header.old }
{
    judge(code, layout, salt.len(), keys.len(), header.len())?;
    new_header::lay(layout, salt, keys, header);
    Ok(())
}

// The kind of volume at a location; of a code that is not known, the first location's.
#[tactic(auto, unfolding(locations::specs::Locations::location_of, locations::specs::Locations::locations))]
fn kind_of(code: u8) -> u64
    ensures { result ≡ (location_of code).kind }
{
    match locations::LOCATIONS.get(usize::from(code)) {
        Some(location) => location.kind,
        None => layout::STANDARD,
    }
}

#[tactic(auto, unfolding(crate::specs::HeaderWriting::header_answer, locations::specs::Locations::code_rule))]
fn judge(
    code: u8,
    layout: Layout,
    salt_size: usize,
    keys_size: usize,
    header_size: usize,
) -> Result<(), Refusal>
    ensures { result ≡ header_answer code layout salt_size keys_size header_size }
{
    if !header_format::lengths_fit(salt_size, keys_size, header_size) {
        return Err(Refusal::new(answers::LENGTHS));
    }
    if header_format::TRUE < layout.magic {
        return Err(Refusal::new(answers::MAGIC));
    }
    if locations::MAX_CODE < code {
        return Err(Refusal::new(answers::CODE));
    }
    if !layout::is_host_size(layout.host_size) {
        return Err(Refusal::new(answers::HOST_SIZE));
    }
    if !header_format::keeps_version(layout.magic, layout.version) {
        return Err(Refusal::new(answers::VERSION));
    }
    if !layout::is_sector_size(layout.sector_size) {
        return Err(Refusal::new(answers::SECTOR_SIZE));
    }
    if !layout::is_data_area(layout) {
        return Err(Refusal::new(answers::DATA_AREA));
    }
    Ok(())
}
