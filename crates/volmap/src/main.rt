// The map program: reads a host's size, a location code and a candidate from standard input, and
// prints where the volume lies in its host, or the refusal. Assumes nothing.
#![tactic(auto)]

use std::io;
use std::io::Read;

// One byte more than the input has, so that a longer input is seen.
const READ_SIZE: u64 = map_input::SIZE as u64 + 1;

fn main(rt: HostRuntime) -> io::Result<()> {
    let mut input = Vec::new(rt.alloc());
    rt.stdin().take(READ_SIZE).read_to_end(&mut input)?;
    let mut lines = [0u8; map_output::SIZE];
    let opened = map_input::open_input(&input);
    let Ok(layout) = opened else {
        let number = answers::refusal_number(&opened);
        let size = map_output::refusal_line(number, &mut lines);
        return rt.write_all(&lines[..size]);
    };
    let size = map_output::layout_lines(layout, &mut lines);
    rt.write_all(&lines[..size])
}
