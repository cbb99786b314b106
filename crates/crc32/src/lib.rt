// CRC-32 of ITU-T V.42, computed four bytes at a time by four tables of 256 entries.
// Assumes nothing; no public function has a `requires`.
#![tactic(auto)]

ghost use Rattle.std.specs.Prelude.{◌≡◌, [], ◌∷◌};
ghost use Rattle.std.specs.Int.Bits.{bit_xor};
ghost use Rattle.numbers.specs.Numbers.{little_endian};
ghost use Rattle.crc32.specs.Crc32.{bit_steps, crc32};
ghost use Rattle.crc32.specs.Tables.{crc_tables};

mod tables;

// The register before the first byte, and what it is combined with after the last.
const ONES: u32 = 0xFFFF_FFFF;

// The checksum of bytes.
pub fn checksum(bytes: &[u8]) -> u32
    ensures { result ≡ crc32 bytes.now }
{
    let (words, rest) = bytes.as_chunks::<4>();
    let crc = words.iter().fold(ONES, after_word);
    ONES ^ rest.iter().fold(crc, after_byte)
}

// The checksums of two slices.
pub fn checksum_pair(first: &[u8], second: &[u8]) -> [u32; 2]
    ensures { result ≡ crc32 first.now ∷ crc32 second.now ∷ [] }
{
    [checksum(first), checksum(second)]
}

// The register after a byte.
fn after_byte(crc: u32, byte: &u8) -> u32
    ensures { result ≡ bit_steps 8 (bit_xor byte.now crc) }
{
    let tables = crc_tables();
    let mixed = u32::from(*byte) ^ crc;
    tables[(mixed % 256) as usize] ^ (mixed >> 8)
}

// The register after four bytes.
fn after_word(crc: u32, word: &[u8; 4]) -> u32
    ensures { result ≡ bit_steps 32 (bit_xor (little_endian word.now) crc) }
{
    let [a, b, c, d] = (u32::from_le_bytes(*word) ^ crc).to_le_bytes();
    let tables = crc_tables();
    tables[768 + usize::from(a)]
        ^ tables[512 + usize::from(b)]
        ^ tables[256 + usize::from(c)]
        ^ tables[usize::from(d)]
}

// The four tables, one behind the other.
fn crc_tables() -> &'static [u32; 1024]
    ensures { result.now ≡ crc_tables }
{
    &tables::TABLES
}
