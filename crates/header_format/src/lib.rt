// The format of a header: its fields and their places, its magics and their versions.
// Assumes nothing; no public function has a `requires`.
#![tactic(auto)]

ghost use Rattle.std.specs.Prelude.{◌≡◌};
ghost use Rattle.header_format.specs.Format.{magic_number, version_rule, new_lengths_rule};

pub mod places;

pub const SIZE: usize = 512;

pub const SALT_SIZE: usize = places::SALT.size;

// Where the keys stand.
pub const KEYS: usize = places::KEYS.offset;

pub const KEYS_SIZE: usize = places::KEYS.size;

// The magics, as a header spells them.
pub const VERA_MAGIC: [u8; 4] = *b"VERA";

pub const TRUE_MAGIC: [u8; 4] = *b"TRUE";

// The magics, as a layout has them: numbers, since a layout may hold any.
pub const VERA: u64 = 0;

pub const TRUE: u64 = 1;

const NEITHER: u64 = 2;

// The numbers of a header (RULES.md, Header bytes), with the rules' letters behind them.
#[derive(Clone, Copy)]
pub struct Fields {
    pub version: u64,
    pub min_program_version: u64,
    pub hidden_size: u64, // H
    pub data_size: u64, // V
    pub data_start: u64, // O
    pub encrypted_size: u64, // E
    pub flags: u64,
    pub sector_size: u64, // Z
}

// Which magic the bytes spell: VERA's number or TRUE's, and NEITHER for all other bytes.
pub fn magic_number(bytes: &[u8]) -> u64
    ensures { result ≡ magic_number bytes.now }
{
    if byte_tests::same_bytes(bytes, &VERA_MAGIC) {
        return VERA;
    }
    if byte_tests::same_bytes(bytes, &TRUE_MAGIC) {
        return TRUE;
    }
    NEITHER
}

// Whether headers of a magic may have this version. Any other magic than VERA is judged as TRUE.
pub fn keeps_version(magic: u64, version: u64) -> bool
    ensures { result ≡ version_rule magic version }
{
    if 5 < version {
        return false;
    }
    if magic == VERA {
        return 2 <= version;
    }
    4 <= version
}

// Whether salt and keys have the lengths of their fields, and the header that of a header.
pub fn lengths_fit(salt_size: usize, keys_size: usize, header_size: usize) -> bool
    ensures { result ≡ new_lengths_rule salt_size keys_size header_size }
{
    if salt_size != SALT_SIZE {
        return false;
    }
    if keys_size != KEYS_SIZE {
        return false;
    }
    header_size == SIZE
}
