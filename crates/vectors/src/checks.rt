// Records that ask for the checksum of what follows, or for a header's location by code and host size.
use crate::body::Body;
use crate::print::{Checksum, Told};
use crate::streams::Streams;
use std::io;

pub fn checksum(streams: &mut Streams, body: Body) -> io::Result<()> {
    streams.print(Checksum(body.rest()))
}

pub fn location(streams: &mut Streams, mut body: Body) -> io::Result<()> {
    let code = u8::from_be_bytes(body.low_bytes());
    let host_size = body.number();
    streams.print(Told(locations::locate(code, host_size)))
}
