// AES with keys of 256 bits (FIPS 197): the cipher and its inverse. A block is its four columns of four
// bytes; blocks and the fifteen round keys pass by value.
// The tables that a function borrows are to be those of `aes_tables`: with others its answer is left free. Public functions
// take any, since a type of these tables alone would narrow what they take.
// Assumes nothing; no public function has a `requires`.
#![tactic(auto)]

ghost use Rattle.std.specs.Prelude.{◌≡◌};
ghost use Rattle.aes_tables.specs.SBox.{ByTables};
ghost use Rattle.aes.specs.Cipher.{cipher, inv_cipher, through_cipher};

// Which way a block goes through the cipher.
#[derive(Clone, Copy)]
pub enum Direction {
    Encipher,
    Decipher,
}

// A block that goes this way.
pub fn convert_block(
    tables: &[[u8; 256]; 2],
    keys: [[[u8; 4]; 4]; 15],
    direction: Direction,
    block: [[u8; 4]; 4],
) -> [[u8; 4]; 4]
    ensures { ByTables tables.now (result ≡ through_cipher direction keys block) }
{
    match direction {
        Direction::Encipher => encipher_block(tables, keys, block),
        Direction::Decipher => decipher_block(tables, keys, block),
    }
}

// A block enciphered with round keys.
// Beside its inverse: one function of both would be given the rounds, the order of keys and the last round, and be no plainer.
fn encipher_block(
    tables: &[[u8; 256]; 2],
    keys: [[[u8; 4]; 4]; 15],
    block: [[u8; 4]; 4],
) -> [[u8; 4]; 4]
    ensures { ByTables tables.now (result ≡ cipher keys block) }
{
    let mut state = aes_steps::add_round_key(keys[0], block);
    // In two steps, here and below: no proof follows a call whose array goes straight into what it was lent.
    for r in 1..14 {
        let after = aes_steps::round(tables, keys[r], state);
        state = after;
    }
    aes_steps::last_round(tables, keys[14], state)
}

// A block deciphered with round keys.
fn decipher_block(
    tables: &[[u8; 256]; 2],
    keys: [[[u8; 4]; 4]; 15],
    block: [[u8; 4]; 4],
) -> [[u8; 4]; 4]
    ensures { ByTables tables.now (result ≡ inv_cipher keys block) }
{
    let mut state = aes_steps::add_round_key(keys[14], block);
    for r in (1..14).rev() {
        let after = aes_steps::inv_round(tables, keys[r], state);
        state = after;
    }
    aes_steps::last_inv_round(tables, keys[0], state)
}
