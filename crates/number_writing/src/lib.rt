// Numbers spelt in bytes, big-endian and little-endian.
// Assumes nothing; no function has a `requires`.
#![tactic(auto)]

ghost use Rattle.std.specs.Prelude.{◌≡◌, length};
ghost use Rattle.numbers.specs.Numbers.{big_endian_bytes, little_endian_bytes};

// Fills bytes with number, the first byte the most significant: its low bytes where there is no
// room for all, and zeros before it where there is more.
pub fn write_big_endian(number: u64, bytes: &mut [u8])
    ensures { bytes.new ≡ big_endian_bytes (length bytes.old) number }
{
    let mut high = number;
    // By an index: of bytes that are written through iter_mut().rev() a proof knows nothing.
    for at in (0..bytes.len()).rev() {
        bytes[at] = (high % 256) as u8;
        high /= 256;
    }
}

// Fills bytes with number, the first byte the least significant: its low bytes where there is no
// room for all, and zeros behind it where there is more.
pub fn write_little_endian(number: u64, bytes: &mut [u8])
    ensures { bytes.new ≡ little_endian_bytes (length bytes.old) number }
{
    let mut rest = number;
    // By an index here too: that the loop begins at 1 is what the must-fail edit first_byte_kept gets wrong.
    for at in 0..bytes.len() {
        bytes[at] = (rest % 256) as u8;
        rest /= 256;
    }
}
