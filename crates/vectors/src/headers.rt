// Records that ask for a header to be written: what it is to tell, the length of the output and what it is
// filled from, the length of the salt, the salt and the keys. What the call leaves in the output is printed:
// its checksum, and what opening says of it.
use crate::body::{Body, within};
use crate::print::{Answer, Checksum};
use crate::streams::Streams;
use crate::{image, openings};
use std::io;

// A header, and a byte more, so that it can be passed too long.
const OUTPUT_SPACE: usize = 513;

pub fn run(streams: &mut Streams, mut body: Body) -> io::Result<()> {
    let header = Header::read(&mut body);
    let mut space = [0u8; OUTPUT_SPACE];
    let output_size = within(body.number(), OUTPUT_SPACE);
    let output = &mut space[..output_size];
    image::fill(output, body.number());
    let salt_size = body.number();
    let (salt, keys) = body.split(salt_size);
    let refusal = header.write(salt, keys, output);
    streams.print(Answer(refusal))?;
    streams.print(Checksum(output))?;
    openings::open(streams, output, &[header.code], header.host_size)
}

// What a header is to tell.
#[derive(Clone, Copy)]
struct Header {
    magic: [u8; 4],
    version: u16,
    min_program_version: u16,
    code: u8,
    host_size: u64,
    data_start: u64,
    data_size: u64,
    sector_size: u64,
}

impl Header {
    // From its numbers, in their order. That of the magic is what its four bytes spell.
    fn read(body: &mut Body) -> Self {
        Header {
            magic: body.low_bytes(),
            version: u16::from_be_bytes(body.low_bytes()),
            min_program_version: u16::from_be_bytes(body.low_bytes()),
            code: u8::from_be_bytes(body.low_bytes()),
            host_size: body.number(),
            data_start: body.number(),
            data_size: body.number(),
            sector_size: body.number(),
        }
    }

    fn write(&self, salt: &[u8], keys: &[u8], output: &mut [u8]) -> u64 {
        ondristela::ondristela_write_header(
            &self.magic,
            self.version,
            self.min_program_version,
            self.code,
            self.host_size,
            self.data_start,
            self.data_size,
            self.sector_size,
            salt,
            keys,
            output,
        )
    }
}
