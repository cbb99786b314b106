// The columns of a block mixed (FIPS 197): sums of products in the field, which are made of doublings.
// Assumes nothing; no public function has a `requires`.
#![tactic(auto)]

ghost use Rattle.std.specs.Prelude.{◌≡◌, ◌<◌};
ghost use Rattle.aes_tables.specs.Field.{product, times_x, where_set};
ghost use Rattle.aes_mixing.specs.Mixing.{mixed, mixed_word, each_column, mix_columns, inv_mix_columns};

// The columns of a block, mixed.
pub fn mix_columns(s: [[u8; 4]; 4]) -> [[u8; 4]; 4]
    ensures { result ≡ mix_columns s }
{
    each_column::<2, 3, 1, 1>(s)
}

// .. and back.
pub fn inv_mix_columns(s: [[u8; 4]; 4]) -> [[u8; 4]; 4]
    ensures { result ≡ inv_mix_columns s }
{
    each_column::<14, 11, 13, 9>(s)
}

// Each column times a matrix. Written out: `map` stays a loop in the inverse, and deciphering takes longer, at 15.5 MB/s
// and not 18.6.
fn each_column<const J: u8, const K: u8, const L: u8, const M: u8>(s: [[u8; 4]; 4]) -> [[u8; 4]; 4]
    requires { (J < 16) × (K < 16) × (L < 16) × (M < 16) }
    ensures { result ≡ each_column (mixed_word J K L M) s }
{
    [
        mix_column::<J, K, L, M>(s[0]),
        mix_column::<J, K, L, M>(s[1]),
        mix_column::<J, K, L, M>(s[2]),
        mix_column::<J, K, L, M>(s[3]),
    ]
}

// A column times the matrix whose row 0 is J K L M, and each later row the one before it moved to the right by one, around.
fn mix_column<const J: u8, const K: u8, const L: u8, const M: u8>(w: [u8; 4]) -> [u8; 4]
    requires { (J < 16) × (K < 16) × (L < 16) × (M < 16) }
    ensures { result ≡ mixed_word J K L M w }
{
    [
        mix::<J, K, L, M>(w[0], w[1], w[2], w[3]),
        mix::<J, K, L, M>(w[1], w[2], w[3], w[0]),
        mix::<J, K, L, M>(w[2], w[3], w[0], w[1]),
        mix::<J, K, L, M>(w[3], w[0], w[1], w[2]),
    ]
}

// One byte of a mixed column.
fn mix<const J: u8, const K: u8, const L: u8, const M: u8>(w: u8, x: u8, y: u8, z: u8) -> u8
    requires { (J < 16) × (K < 16) × (L < 16) × (M < 16) }
    ensures { result ≡ mixed J K L M w x y z }
{
    (product::<J>(w) ^ product::<K>(x)) ^ (product::<L>(y) ^ product::<M>(z))
}

// A factor of four bits times a byte: the sum, over the factor's set bits i, of x^i times the byte. Written out: by a loop
// over the bits deciphering takes longer, at 18.6 MB/s and not 20.1.
fn product<const FACTOR: u8>(a: u8) -> u8
    requires { FACTOR < 16 }
    ensures { result ≡ product FACTOR a }
{
    let a2 = times_x(a);
    let a4 = times_x(a2);
    let a8 = times_x(a4);
    where_set(FACTOR % 2, a)
        ^ (where_set(FACTOR / 2 % 2, a2)
            ^ (where_set(FACTOR / 4 % 2, a4) ^ where_set(FACTOR / 8 % 2, a8)))
}

#[tactic(auto, using(crate::proofs::FieldLaws::where_unset, crate::proofs::FieldLaws::where_set_one))]
fn where_set(bit: u8, a: u8) -> u8
    ensures { result ≡ where_set bit a }
{
    if bit == 0 { 0 } else { a }
}

// x times a byte.
fn times_x(a: u8) -> u8
    ensures { result ≡ times_x a }
{
    (a << 1) ^ ((a >> 7) * 0x1B)
}
