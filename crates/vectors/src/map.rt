// Records that ask for all that the sector map says of a number, taken as a user sector and as a host
// sector: that number and a layout's.
use crate::body::Body;
use crate::print::{Hex, Told};
use crate::streams::Streams;
use layout::Layout;
use std::io;

pub fn run(streams: &mut Streams, mut body: Body) -> io::Result<()> {
    let sector = body.number();
    let layout = layout_from(body);
    streams.print(u64::from(layout::is_sound(layout)))?;
    streams.print(Told(sector_map::sector_count(layout)))?;
    streams.print(Told(sector_map::host_sector(layout, sector)))?;
    streams.print(Told(sector_map::user_sector(layout, sector)))?;
    streams.print(Told(tweaks::tweak_number(layout, sector)))?;
    let tweak = tweaks::tweak_block(layout, sector);
    streams.print(Told(tweak.number))?;
    streams.print(Hex(&tweak.block))
}

// A layout from its numbers, in their order.
fn layout_from(mut numbers: Body) -> Layout {
    Layout {
        host_size: numbers.number(),
        kind: numbers.number(),
        magic: numbers.number(),
        version: numbers.number(),
        min_program_version: numbers.number(),
        data_start: numbers.number(),
        data_size: numbers.number(),
        candidate: numbers.number(),
        sector_size: numbers.number(),
    }
}
