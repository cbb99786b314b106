// The body of a record: numbers, what is asked for and the slot of a view first, and after them any bytes.
// Every number is eight bytes, big-endian.
ghost use Rattle.std.specs.Prelude.{◌≤◌};

use std::array;

// Sizes are taken below this, so that they can be counted.
const SIZES: u64 = 4_294_967_296;

// What is left of a body. Each call takes what comes next.
#[derive(Drop)]
pub struct Body<'a>(&'a [u8]);

impl<'a> Body<'a> {
    pub fn new(bytes: &'a [u8]) -> Self {
        Body(bytes)
    }

    // A number, 0 where there is none; nothing follows that.
    pub fn number(&mut self) -> u64 {
        match self.0.split_first_chunk() {
            Some((bytes, rest)) => {
                self.0 = rest;
                u64::from_be_bytes(*bytes)
            }
            None => {
                self.0 = &[];
                0
            }
        }
    }

    pub fn numbers<const N: usize>(&mut self) -> [u64; N] {
        array::from_fn(|_| self.number())
    }

    // The low bytes of a number.
    pub fn low_bytes<const N: usize>(&mut self) -> [u8; N] {
        let bytes = self.number().to_be_bytes();
        bytes.last_chunk().copied().unwrap_or([0; N])
    }

    // Bytes, 0 where there are fewer.
    pub fn bytes<const N: usize>(&mut self) -> [u8; N] {
        let bytes = self.0;
        self.0 = bytes.get(N..).unwrap_or(&[]);
        array::from_fn(|place| bytes.get(place).copied().unwrap_or(0))
    }

    // So many bytes, and all that follows them.
    pub fn split(self, size: u64) -> (&'a [u8], &'a [u8]) {
        self.0.split_at(within(size, self.0.len()))
    }

    // All that is left.
    pub fn rest(self) -> &'a [u8] {
        self.0
    }
}

// A size, or the most that it may be where that is less.
pub fn within(size: u64, most: usize) -> usize
    ensures { result ≤ most }
{
    most.min((size % SIZES) as usize)
}
