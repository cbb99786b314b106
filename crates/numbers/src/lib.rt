// Numbers of any count of bytes, big-endian and little-endian.
// Assumes nothing; no function has a `requires`.
#![tactic(auto)]

ghost use Rattle.std.specs.Prelude.{◌≡◌, ◌+◌, ◌*◌, ◌%◌, ◌^◌, length};
ghost use Rattle.numbers.specs.Numbers.{big_endian, little_endian, ReadAs};

// The number that bytes spell, the first byte the most significant. More than eight bytes give the
// number modulo 2^64, and no bytes give 0.
pub fn read_big_endian(bytes: &[u8]) -> u64
    ensures { ReadAs (big_endian bytes.now) (length bytes.now) result }
{
    bytes.iter().fold(0, with_byte)
}

// The number that bytes spell, the first byte the least significant. More than eight bytes give the
// number modulo 2^64, and no bytes give 0.
pub fn read_little_endian(bytes: &[u8]) -> u64
    ensures { ReadAs (little_endian bytes.now) (length bytes.now) result }
{
    bytes.iter().rev().fold(0, with_byte)
}

// A number written on by a byte, modulo 2^64.
fn with_byte(number: u64, byte: &u8) -> u64
    ensures { result ≡ (number * 256 + byte.now) % 2 ^ 64 }
{
    number.wrapping_mul(256) + u64::from(*byte)
}
