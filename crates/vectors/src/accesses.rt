// Records that ask for a read or a write of raw bytes or of plaintext: the length of the image, the first
// sector and the count, the length of the buffer, what it is filled from, and what the sector is before the
// call; for plaintext, its two keys. What the call leaves is printed: the sector, checksums of the buffer and
// of the whole image, and the view.
use crate::body::{Body, within};
use crate::image;
use crate::print::{Answer, Checksum, Numbers};
use crate::requests::Access;
use crate::streams::Streams;
use crate::views::View;
use std::io;

// What a call is asked for and lent, but for the image and the view.
#[derive(Drop)]
struct Call<'a> {
    first: u64,
    count: u64,
    buffer: &'a mut [u8],
    sector: [u64; 1],
    keys: [u8; 64],
}

impl<'a> Call<'a> {
    // Its buffer is so much of the space as the record says.
    fn new(space: &'a mut [u8], mut body: Body) -> Self {
        let first = body.number();
        let count = body.number();
        let size = within(body.number(), space.len());
        let buffer = &mut space[..size];
        image::fill(buffer, body.number());
        let sector = [body.number()];
        let keys = body.bytes();
        Call {
            first,
            count,
            buffer,
            sector,
            keys,
        }
    }

    // Makes the call, and gives its refusal.
    fn make(&mut self, access: Access, image: &mut [u8], view: &mut View) -> u64 {
        let first = self.first;
        let count = self.count;
        let keys = &self.keys;
        let buffer = &mut *self.buffer;
        let sector = &mut self.sector;
        match access {
            Access::Read => {
                ondristela::ondristela_read(view, image, first, count, buffer, sector)
            }
            Access::Write => {
                ondristela::ondristela_write(view, image, first, count, buffer, sector)
            }
            Access::ReadPlaintext => ondristela::ondristela_read_plaintext(
                view, keys, image, first, count, buffer, sector,
            ),
            Access::WritePlaintext => ondristela::ondristela_write_plaintext(
                view, keys, image, first, count, buffer, sector,
            ),
        }
    }
}

pub fn run(
    streams: &mut Streams,
    image: &mut [u8],
    space: &mut [u8],
    view: &mut View,
    access: Access,
    mut body: Body,
) -> io::Result<()> {
    let image_size = within(body.number(), image.len());
    let mut call = Call::new(space, body);
    let refusal = call.make(access, &mut image[..image_size], view);
    streams.print(Answer(refusal))?;
    streams.print(call.sector[0])?;
    streams.print(Checksum(call.buffer))?;
    streams.print(Checksum(image))?;
    streams.print(Numbers(view))
}
