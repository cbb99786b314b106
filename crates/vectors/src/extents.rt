// Records that ask where a read or a write finds its bytes: the length of the image, the first sector and the
// count, the length of the buffer, and what the offset and the sector are before the call. What the call leaves
// is printed: the offset, the sector and the view.
use crate::body::Body;
use crate::print::{Answer, Numbers};
use crate::requests::Extent;
use crate::streams::Streams;
use crate::views::View;
use std::io;

pub fn run(
    streams: &mut Streams,
    view: &mut View,
    extent: Extent,
    mut body: Body,
) -> io::Result<()> {
    let [image, first, count, buffer] = body.numbers::<4>();
    let mut offset = [body.number()];
    let mut sector = [body.number()];
    let refusal = match extent {
        Extent::Read => ondristela::ondristela_read_extent(
            view,
            image,
            first,
            count,
            buffer,
            &mut offset,
            &mut sector,
        ),
        Extent::Write => ondristela::ondristela_write_extent(
            view,
            image,
            first,
            count,
            buffer,
            &mut offset,
            &mut sector,
        ),
    };
    streams.print(Answer(refusal))?;
    streams.print(offset[0])?;
    streams.print(sector[0])?;
    streams.print(Numbers(view))
}
