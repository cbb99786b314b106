// The map program's output: the ten lines of a layout, or the one line of a refusal, put into a buffer.
// Assumes nothing; no public function has a `requires`.
#![tactic(auto)]

ghost use Rattle.std.specs.Prelude.{◌≡◌, ◌+◌, ◌*◌, ◌≤◌, length};
ghost use Rattle.map_output.specs.Decimal.{Spelled};
ghost use Rattle.map_output.specs.MapOutput.{text_line, number_line, either_line, line_room};
ghost use Rattle.map_output.specs.MapOutput.{header_lines, area_lines, sector_lines, last_sector, layout_lines, refusal_line};
ghost use Rattle.map_output.specs.MapOutput.{Written, Rendered};

use layout::{Layout, SECTOR_SIZE};

// The room that a line takes at most: eight bytes of label, a space, twenty digits and a line feed.
const LINE: usize = 30;

// The room for ten lines.
pub const SIZE: usize = 10 * LINE;

// The digits of a number of 64 bits at most.
const DIGITS: usize = 20;

// Puts the ten lines of a layout at the start of out, and answers how many bytes they have, since the library keeps no
// heap. What stands behind them is left as it was. Made-up layouts have their lines too.
pub fn layout_lines(layout: Layout, out: &mut [u8; SIZE]) -> usize
    ensures { Rendered (layout_lines layout) out.old out.new result }
{
    let mut text = Text {
        bytes: *out,
        size: 0,
    };
    text.put_header(layout);
    text.put_area(layout);
    text.put_sectors(layout);
    *out = text.bytes;
    text.size
}

// Puts the line of a refusal at the start of out, and answers how many bytes it has. What stands
// behind it is left as it was.
pub fn refusal_line(number: u8, out: &mut [u8; SIZE]) -> usize
    ensures { Rendered (refusal_line number) out.old out.new result }
{
    let mut text = Text {
        bytes: *out,
        size: 0,
    };
    text.put_number(b"refused", u64::from(number));
    *out = text.bytes;
    text.size
}

// A text that is written from the start of a buffer on: the buffer, and how many of its bytes the text has so far.
// No heap, so no string. It holds the buffer and no reference, of which each method would have to promise that it
// stays the same.
#[derive(Drop)]
struct Text {
    bytes: [u8; SIZE],
    size: usize,
}

impl Text {
    // What the header says of itself.
    fn put_header(&mut self, layout: Layout)
        requires { self.old.size + 3 * line_room ≤ length self.old.bytes }
        ensures { Written (3 * line_room) (header_lines layout) self.old.bytes self.old.size self.new.bytes self.new.size }
    {
        let vera = layout.magic == header_format::VERA;
        self.put_either(b"mark", vera, b"VERA", b"TRUE");
        self.put_number(b"version", layout.version);
        self.put_number(b"needs", layout.min_program_version);
    }

    // Where the data area lies in its host, in bytes.
    fn put_area(&mut self, layout: Layout)
        requires { self.old.size + 4 * line_room ≤ length self.old.bytes }
        ensures { Written (4 * line_room) (area_lines layout) self.old.bytes self.old.size self.new.bytes self.new.size }
    {
        let hidden = layout.kind == layout::HIDDEN;
        self.put_either(b"kind", hidden, b"hidden", b"standard");
        self.put_number(b"host", layout.host_size);
        self.put_number(b"start", layout.data_start);
        self.put_number(b"size", layout.data_size);
    }

    // The same in sectors of the host.
    fn put_sectors(&mut self, layout: Layout)
        requires { self.old.size + 3 * line_room ≤ length self.old.bytes }
        ensures { Written (3 * line_room) (sector_lines layout) self.old.bytes self.old.size self.new.bytes self.new.size }
    {
        self.put_number(b"sectors", layout.data_size / SECTOR_SIZE);
        self.put_number(b"first", layout.data_start / SECTOR_SIZE);
        self.put_number(b"last", last_sector(layout));
    }

    // A line whose value is one of two words.
    fn put_either(&mut self, label: &[u8], test: bool, one: &[u8], other: &[u8])
        requires label_len_bound { length label.now ≤ 8 }
        requires one_len_bound { length one.now ≤ 20 }
        requires other_len_bound { length other.now ≤ 20 }
        requires line_fits { self.old.size + line_room ≤ length self.old.bytes }
        ensures { Written line_room (either_line label.now test one.now other.now) self.old.bytes self.old.size self.new.bytes self.new.size }
    {
        if test {
            self.put_line(label, one);
        } else {
            self.put_line(label, other);
        }
    }

    // A line whose value is a number.
    fn put_number(&mut self, label: &[u8], number: u64)
        requires label_len_bound { length label.now ≤ 8 }
        requires line_fits { self.old.size + line_room ≤ length self.old.bytes }
        ensures { Written line_room (number_line label.now number) self.old.bytes self.old.size self.new.bytes self.new.size }
    {
        let mut digits = [0u8; DIGITS];
        let first = decimal(number, &mut digits);
        self.put_line(label, &digits[first..]);
    }

    // A line. That a label is short is asked of slices, since a type for labels would be longer than the three lines.
    fn put_line(&mut self, label: &[u8], value: &[u8])
        requires label_len_bound { length label.now ≤ 8 }
        requires value_len_bound { length value.now ≤ 20 }
        requires line_fits { self.old.size + line_room ≤ length self.old.bytes }
        ensures { Written line_room (text_line label.now value.now) self.old.bytes self.old.size self.new.bytes self.new.size }
    {
        self.put(label);
        self.put(b" ");
        self.put(value);
        self.put(b"\n");
    }

    // Copies bytes behind the text.
    fn put(&mut self, bytes: &[u8])
        requires { self.old.size + length bytes.now ≤ length self.old.bytes }
        ensures { Written (length bytes.now) bytes.now self.old.bytes self.old.size self.new.bytes self.new.size }
    {
        let end = self.size + bytes.len();
        self.bytes[self.size..end].copy_from_slice(bytes);
        self.size = end;
    }
}

fn last_sector(layout: Layout) -> u64
    ensures { result ≡ last_sector layout }
{
    let sectors = layout.data_size / SECTOR_SIZE;
    layout.data_start / SECTOR_SIZE + sectors.saturating_sub(1)
}

// Puts a number's decimal digits at the end of digits, and answers where they start.
fn decimal(number: u64, digits: &mut [u8; DIGITS]) -> usize
    ensures { Spelled number digits.new result }
{
    itoa::write_digits(number, digits, DIGITS)
}
