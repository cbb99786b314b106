// What AES does to a word of four bytes: its bytes through the S-box, by look-up, and sums of words.
// The tables that a function borrows are to be those of `aes_tables`: with others its answer is left free. Public functions
// take any, since a type of these tables alone would narrow what they take.
// Assumes nothing; no public function has a `requires`.
#![tactic(auto)]

ghost use Rattle.std.specs.Prelude.{◌≡◌, ℕ};
ghost use Rattle.bits.specs.Bits.{entries};
ghost use Rattle.aes_tables.specs.SBox.{restored, ByTables};
ghost use Rattle.aes_words.specs.Words.{each_byte, sub_word, add_word};

use std::array;

// The bytes of a word through the S-box.
pub fn sub_word(tables: &[[u8; 256]; 2], w: [u8; 4]) -> [u8; 4]
    ensures { ByTables tables.now (result ≡ sub_word w) }
{
    looked_up(&tables[0], w)
}

// .. and through its inverse.
pub fn restore_word(tables: &[[u8; 256]; 2], w: [u8; 4]) -> [u8; 4]
    ensures { ByTables tables.now (result ≡ each_byte restored w) }
{
    looked_up(&tables[1], w)
}

// The sum of two words.
pub fn add_word(w: [u8; 4], v: [u8; 4]) -> [u8; 4]
    ensures { result ≡ add_word w v }
{
    array::from_fn(|r| w[r] ^ v[r])
}

// The bytes of a word through a function of bytes, whose values are a table.
fn looked_up(table: &[u8; 256], w: [u8; 4]) -> [u8; 4]
    ensures { (f : ℕ → ℕ) → table.now ≡ entries f 256 0 → result ≡ each_byte f w }
{
    w.map(|byte| entry(table, byte))
}

fn entry(table: &[u8; 256], byte: u8) -> u8
    ensures { (f : ℕ → ℕ) → table.now ≡ entries f 256 0 → result ≡ f byte }
{
    table[usize::from(byte)]
}
