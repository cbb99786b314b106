// What a round does to a block, step by step.
ghost use Rattle.std.specs.Prelude.{◌≡◌, [], ◌∷◌, slice_index};
ghost use Rattle.aes_tables.specs.SBox.{ByTables};
ghost use Rattle.aes_steps.specs.Blocks.{sub_bytes, inv_sub_bytes, shift_rows, inv_shift_rows};

// The columns are written out, here, in its inverse and in `add_round_key`: of a closure that gives an array nothing is
// inferred, so that `map`, or one function that takes what is done to a column, would need the clause once more.
pub fn sub_bytes(tables: &[[u8; 256]; 2], s: [[u8; 4]; 4]) -> [[u8; 4]; 4]
    ensures { ByTables tables.now (result ≡ sub_bytes s) }
{
    [
        aes_words::sub_word(tables, s[0]),
        aes_words::sub_word(tables, s[1]),
        aes_words::sub_word(tables, s[2]),
        aes_words::sub_word(tables, s[3]),
    ]
}

pub fn inv_sub_bytes(tables: &[[u8; 256]; 2], s: [[u8; 4]; 4]) -> [[u8; 4]; 4]
    ensures { ByTables tables.now (result ≡ inv_sub_bytes s) }
{
    [
        aes_words::restore_word(tables, s[0]),
        aes_words::restore_word(tables, s[1]),
        aes_words::restore_word(tables, s[2]),
        aes_words::restore_word(tables, s[3]),
    ]
}

// Row r moves r columns to the left, around.
pub fn shift_rows(s: [[u8; 4]; 4]) -> [[u8; 4]; 4]
    ensures { result ≡ shift_rows s }
{
    let [a, b, c, d] = s;
    [
        diagonal(a, b, c, d),
        diagonal(b, c, d, a),
        diagonal(c, d, a, b),
        diagonal(d, a, b, c),
    ]
}

// .. and back, to the right.
pub fn inv_shift_rows(s: [[u8; 4]; 4]) -> [[u8; 4]; 4]
    ensures { result ≡ inv_shift_rows s }
{
    let [a, b, c, d] = s;
    [
        diagonal(a, d, c, b),
        diagonal(b, a, d, c),
        diagonal(c, b, a, d),
        diagonal(d, c, b, a),
    ]
}

// The column whose byte in row r is that of the rth of four columns.
fn diagonal(a: [u8; 4], b: [u8; 4], c: [u8; 4], d: [u8; 4]) -> [u8; 4]
    ensures { result ≡ slice_index a 0 ∷ slice_index b 1 ∷ slice_index c 2 ∷ slice_index d 3 ∷ [] }
{
    [a[0], b[1], c[2], d[3]]
}
