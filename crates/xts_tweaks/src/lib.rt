// The tweaks of a unit's blocks in XTS (IEEE 1619): each is α times the one before.
// Assumes nothing; no public function has a `requires`.
#![tactic(auto)]

ghost use Rattle.std.specs.Prelude.{◌≡◌, ◌*◌, ◌/◌};
ghost use Rattle.xts_tweaks.specs.Tweaks.{raised_word, times_alpha};

// A tweak times α: what leaves the last byte comes to the first as 135.
pub fn times_alpha(t: [[u8; 4]; 4]) -> [[u8; 4]; 4]
    ensures { result ≡ times_alpha t }
{
    [
        raise_word(reduced(t[3][3]), t[0]),
        raise_word(t[0][3] >> 7, t[1]),
        raise_word(t[1][3] >> 7, t[2]),
        raise_word(t[2][3] >> 7, t[3]),
    ]
}

// What comes to the first byte for the last.
fn reduced(last: u8) -> u8
    ensures { result ≡ 135 * (last / 128) }
{
    0x87 * (last >> 7)
}

// A word's bits moved up by one, with what comes into its first byte.
fn raise_word(carry: u8, w: [u8; 4]) -> [u8; 4]
    ensures { result ≡ raised_word carry w }
{
    [
        (w[0] << 1) ^ carry,
        (w[1] << 1) ^ (w[0] >> 7),
        (w[2] << 1) ^ (w[1] >> 7),
        (w[3] << 1) ^ (w[2] >> 7),
    ]
}
