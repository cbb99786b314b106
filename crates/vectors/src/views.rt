// Records that ask for a view to be made or made up in a slot. The view that is left there is printed.
use crate::body::Body;
use crate::print::{Answer, Numbers};
use crate::streams::Streams;
use std::io;

// The numbers of a view, and of a layout.
pub const SIZE: usize = 13;

pub const LAYOUT_SIZE: usize = 9;

pub type View = [u64; SIZE];

pub fn make_plain(streams: &mut Streams, view: &mut View, mut body: Body) -> io::Result<()> {
    let layout = body.numbers();
    let refusal = ondristela::ondristela_view_plain(&layout, view);
    print_made(streams, refusal, view)
}

pub fn make_protected(streams: &mut Streams, view: &mut View, mut body: Body) -> io::Result<()> {
    let outer = body.numbers();
    let hidden = body.numbers();
    let refusal = ondristela::ondristela_view_protected(&outer, &hidden, view);
    print_made(streams, refusal, view)
}

// A view from its numbers, whatever they are.
pub fn make_up(streams: &mut Streams, view: &mut View, mut body: Body) -> io::Result<()> {
    *view = body.numbers();
    print_made(streams, 0, view)
}

fn print_made(streams: &mut Streams, refusal: u64, view: &View) -> io::Result<()> {
    streams.print(Answer(refusal))?;
    streams.print(Numbers(view))
}
