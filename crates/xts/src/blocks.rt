// Blocks in bytes.
ghost use Rattle.std.specs.Prelude.{◌≡◌, ◌+◌, ◌≤◌, length, drop};
ghost use Rattle.fields.specs.Bytes.{overlay};
ghost use Rattle.aes_words.specs.Words.{in_fours};
ghost use Rattle.aes_steps.specs.Blocks.{bytes_of};

use std::array;

// The block that stands from a byte on.
pub fn block_at(bytes: &[u8], at: usize) -> [[u8; 4]; 4]
    requires { at + 16 ≤ length bytes.now }
    ensures { result ≡ in_fours 4 (drop at bytes.now) }
{
    let mut block = [[0u8; 4]; 4];
    let (words, _) = bytes[at..at + 16].as_chunks::<4>();
    block.copy_from_slice(words);
    block
}

// Lays a block over bytes from one on.
pub fn store(bytes: &mut [u8], at: usize, block: [[u8; 4]; 4])
    requires { at + 16 ≤ length bytes.old }
    ensures { bytes.new ≡ overlay at (bytes_of block) bytes.old }
{
    copy::lay(&flat(block), bytes, at);
}

fn flat(block: [[u8; 4]; 4]) -> [u8; 16]
    ensures { result ≡ bytes_of block }
{
    array::from_fn(|k| block[k / 4][k % 4])
}
