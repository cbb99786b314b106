// What a call converts units by, made once of a key: the tables of the cipher, and the round keys of the key's halves.
// It borrows them, since no proof follows the making of a struct that holds arrays of arrays.
ghost use Rattle.std.specs.Prelude.{◌≡◌, ◌+◌, ◌/◌, ◌%◌, ◌^◌, ◌≤◌, length};
ghost use Rattle.aes_tables.specs.SBox.{cipher_tables};
ghost use Rattle.aes.specs.Cipher.{through_cipher};
ghost use Rattle.xts.specs.Runs.{in_units};
ghost use Rattle.xts.specs.Units.{first_tweak, under_tweak, converted_by};

use crate::blocks;
use aes::Direction;

#[derive(Clone, Copy)]
pub struct Conversion<'a> {
    pub direction: Direction,
    pub tables: &'a [[u8; 256]; 2],
    pub for_data: &'a [[[u8; 4]; 4]; 15],
    pub for_tweaks: &'a [[[u8; 4]; 4]; 15],
    ghost looks_up: { tables.now ≡ cipher_tables },
}

impl<'a> Conversion<'a> {
    // Units into as many bytes, the first with a number and each later one with the next number.
    pub fn convert_units(&self, number: u64, from: &[u8], into: &mut [u8])
        requires same_length { length into.old ≡ length from.now }
        requires whole_units { length from.now % 512 ≡ 0 }
        requires numbers_fit { number + length from.now / 512 ≤ 2 ^ 64 }
        ensures { into.new ≡ in_units (converted_by self.now.direction self.now.for_data.now self.now.for_tweaks.now) (length from.now / 512) number from.now }
    {
        for i in 0..from.len() / 512 {
            let at = 512 * i;
            self.convert_unit(
                number + i as u64,
                &from[at..at + 512],
                &mut into[at..at + 512],
            );
        }
    }

    // A unit with a number, into as many bytes.
    fn convert_unit(&self, number: u64, from: &[u8], into: &mut [u8])
        requires from_len { length from.now ≡ 512 }
        requires into_len { length into.old ≡ 512 }
        ensures { into.new ≡ converted_by self.now.direction self.now.for_data.now self.now.for_tweaks.now number from.now }
    {
        let mut tweak = self.first_tweak(number);
        for i in 0..32 {
            let at = 16 * i;
            let block = self.under_tweak(tweak, blocks::block_at(from, at));
            blocks::store(into, at, block);
            // In two steps: no proof follows a call whose array goes straight into what it was given.
            let next = xts_tweaks::times_alpha(tweak);
            tweak = next;
        }
    }

    // The tweak of the first block of a unit with this number.
    fn first_tweak(&self, number: u64) -> [[u8; 4]; 4]
        ensures { result ≡ first_tweak self.now.for_tweaks.now number }
    {
        let bytes = u128::from(number).to_le_bytes();
        let keys = *self.for_tweaks;
        aes::convert_block(
            self.tables,
            keys,
            Direction::Encipher,
            blocks::block_at(&bytes, 0),
        )
    }

    // A block through the cipher: the tweak is added before and after.
    fn under_tweak(&self, tweak: [[u8; 4]; 4], block: [[u8; 4]; 4]) -> [[u8; 4]; 4]
        ensures { result ≡ under_tweak (through_cipher self.now.direction self.now.for_data.now) tweak block }
    {
        let masked = aes_steps::add_round_key(tweak, block);
        let keys = *self.for_data;
        let converted = aes::convert_block(self.tables, keys, self.direction, masked);
        aes_steps::add_round_key(tweak, converted)
    }
}
