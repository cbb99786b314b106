// The rounds of AES and of its inverse (FIPS 197), plainly. A block is its four columns of four bytes; blocks and
// round keys pass by value.
// The tables that a function borrows are to be those of `aes_tables`: with others its answer is left free. Public functions
// take any, since a type of these tables alone would narrow what they take.
// Assumes nothing; no public function has a `requires`.
#![tactic(auto)]

ghost use Rattle.std.specs.Prelude.{◌≡◌};
ghost use Rattle.aes_tables.specs.SBox.{ByTables};
ghost use Rattle.aes_steps.specs.Blocks.{sub_bytes, inv_sub_bytes, shift_rows, inv_shift_rows, add_round_key};
ghost use Rattle.aes_steps.specs.Rounds.{round as round_of, inv_round as inv_round_of};

mod steps;

// The sum of a block and a round key.
pub fn add_round_key(key: [[u8; 4]; 4], s: [[u8; 4]; 4]) -> [[u8; 4]; 4]
    ensures { result ≡ add_round_key key s }
{
    [
        aes_words::add_word(s[0], key[0]),
        aes_words::add_word(s[1], key[1]),
        aes_words::add_word(s[2], key[2]),
        aes_words::add_word(s[3], key[3]),
    ]
}

pub fn round(tables: &[[u8; 256]; 2], key: [[u8; 4]; 4], s: [[u8; 4]; 4]) -> [[u8; 4]; 4]
    ensures { ByTables tables.now (result ≡ round_of key s) }
{
    let moved = steps::shift_rows(steps::sub_bytes(tables, s));
    add_round_key(key, aes_mixing::mix_columns(moved))
}

pub fn last_round(tables: &[[u8; 256]; 2], key: [[u8; 4]; 4], s: [[u8; 4]; 4]) -> [[u8; 4]; 4]
    ensures { ByTables tables.now (result ≡ add_round_key key (shift_rows (sub_bytes s))) }
{
    let moved = steps::shift_rows(steps::sub_bytes(tables, s));
    add_round_key(key, moved)
}

pub fn inv_round(tables: &[[u8; 256]; 2], key: [[u8; 4]; 4], s: [[u8; 4]; 4]) -> [[u8; 4]; 4]
    ensures { ByTables tables.now (result ≡ inv_round_of key s) }
{
    aes_mixing::inv_mix_columns(last_inv_round(tables, key, s))
}

pub fn last_inv_round(tables: &[[u8; 256]; 2], key: [[u8; 4]; 4], s: [[u8; 4]; 4]) -> [[u8; 4]; 4]
    ensures { ByTables tables.now (result ≡ add_round_key key (inv_sub_bytes (inv_shift_rows s))) }
{
    let moved = steps::inv_sub_bytes(tables, steps::inv_shift_rows(s));
    add_round_key(key, moved)
}
