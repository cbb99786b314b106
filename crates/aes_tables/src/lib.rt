// The S-box of AES and its inverse (FIPS 197), as tables to look bytes up in.
// Assumes nothing; no public function has a `requires`.
#![tactic(auto)]

ghost use Rattle.std.specs.Prelude.{◌≡◌};
ghost use Rattle.aes_tables.specs.SBox.{cipher_tables};

mod inverse_s_box;
mod s_box;

// Copies of the tables: each mention of a constant makes one.
pub fn cipher_tables() -> [[u8; 256]; 2]
    ensures { result ≡ cipher_tables }
{
    [s_box::TABLE, inverse_s_box::TABLE]
}
