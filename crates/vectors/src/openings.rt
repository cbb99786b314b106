// Records that ask for an opening: a host size, a count of location codes, the codes and the candidates.
use crate::body::Body;
use crate::print::{Answer, Checksum, Numbers};
use crate::streams::Streams;
use crate::views;
use std::io;

pub fn run(streams: &mut Streams, mut body: Body) -> io::Result<()> {
    let host_size = body.number();
    let count = body.number();
    let (codes, candidates) = body.split(count);
    open(streams, candidates, codes, host_size)
}

// Prints what opening answers, the layout as it is left, which is zeros where it is refused, and the keys.
pub fn open(
    streams: &mut Streams,
    candidates: &[u8],
    codes: &[u8],
    host_size: u64,
) -> io::Result<()> {
    let mut layout = [0u64; views::LAYOUT_SIZE];
    let refusal = ondristela::ondristela_open(candidates, codes, host_size, &mut layout);
    streams.print(Answer(refusal))?;
    streams.print(Numbers(&layout))?;
    let keys = key_bytes::key_bytes(candidates, codes, host_size);
    streams.print(keys.len())?;
    streams.print(Checksum(keys))
}
