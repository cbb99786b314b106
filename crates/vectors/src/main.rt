// Runs the records of standard input, made by tests/make_vectors.py, and prints the answers of the calls
// that they ask for, with the texts that they have for them. Assumes nothing.
#![tactic(auto)]

mod accesses;
mod body;
mod checks;
mod ciphers;
mod extents;
mod headers;
mod image;
mod map;
mod openings;
mod print;
mod requests;
mod state;
mod streams;
mod views;

use body::Body;
use requests::Request;
use state::State;
use std::io;
use streams::Streams;

const MAX_RECORDS: u32 = 8_192;

// The largest body is below 64 KiB.
const BODY_SPACE: usize = 65_536;

// All memory is taken before the first record is read, so that no record can fail for want of it.
fn main(rt: HostRuntime) -> io::Result<()> {
    let mut streams = Streams::standard(&rt)?;
    let mut state = State::new(rt.alloc())?;
    let mut space = vec![in rt.alloc(); 0u8; BODY_SPACE]?;
    run_records(&mut streams, &mut state, &mut space)?;
    streams.flush()
}

fn run_records(streams: &mut Streams, state: &mut State, space: &mut [u8]) -> io::Result<()> {
    for _ in 0..MAX_RECORDS {
        let Some(body) = streams.next_body(space)? else {
            break;
        };
        run(streams, state, Body::new(body))?;
        streams.print_text()?;
    }
    Ok(())
}

// Prints the answers of a record. The first view has slot 0, the second every other.
fn run(streams: &mut Streams, state: &mut State, mut body: Body) -> io::Result<()> {
    let request = Request::from(body.number());
    let slot = usize::from(body.number() != 0);
    let view = &mut state.views[slot];
    match request {
        Request::Checksum => checks::checksum(streams, body),
        Request::Location => checks::location(streams, body),
        Request::Opening => openings::run(streams, body),
        Request::WriteHeader => headers::run(streams, body),
        Request::Map => map::run(streams, body),
        Request::Plain => views::make_plain(streams, view, body),
        Request::Protected => views::make_protected(streams, view, body),
        Request::MadeUp => views::make_up(streams, view, body),
        Request::Access(access) => accesses::run(
            streams,
            &mut state.image,
            &mut state.buffer,
            view,
            access,
            body,
        ),
        Request::Extent(extent) => extents::run(streams, view, extent, body),
        Request::Key => ciphers::run_key(streams, body),
        Request::Block => ciphers::run_block(streams, body),
        Request::Unit(unit) => ciphers::run_unit(streams, unit, body),
    }
}
