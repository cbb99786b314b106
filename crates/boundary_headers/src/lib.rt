// The writing of headers, over numbers and slices: it returns 0 where the header is written, and else the
// refusal number and changes nothing.
// Assumes nothing; no public function has a `requires`.
#![tactic(auto)]

ghost use Rattle.std.specs.Prelude.{◌≡◌, length};
ghost use Rattle.answers.specs.Answers.{refusal_number};
ghost use Rattle.header_writing.specs.HeaderWriting.{asked_layout, header_answer, header_left};

// Writes the header of a volume over all of header.
pub fn write_header(
    magic: &[u8; 4],
    version: u16,
    min_program_version: u16,
    code: u8,
    host_size: u64,
    data_start: u64,
    data_size: u64,
    sector_size: u64,
    salt: &[u8],
    keys: &[u8],
    header: &mut [u8],
) -> u64
    ensures value { result ≡ refusal_number (header_answer code (asked_layout magic.now version min_program_version code host_size data_start data_size sector_size) (length salt.now) (length keys.now) (length header.old)) }
    ensures header_after { header.new ≡ header_left (header_answer code (asked_layout magic.now version min_program_version code host_size data_start data_size sector_size) (length salt.now) (length keys.now) (length header.old)) (asked_layout magic.now version min_program_version code host_size data_start data_size sector_size) salt.now keys.now header.old }
{
    let written = header_writing::write(
        *magic,
        version,
        min_program_version,
        code,
        host_size,
        data_start,
        data_size,
        sector_size,
        salt,
        keys,
        header,
    );
    u64::from(answers::refusal_number(&written))
}
