// XTS-AES-256 (IEEE 1619) on units of 512 bytes. A key passes by value, 64 bytes: its first half is for the
// data, its second for the tweaks. What is made of it is made once for a call.
// Assumes nothing; no public function has a `requires`.
#![tactic(auto)]

ghost use Rattle.std.specs.Prelude.{◌≡◌, ◌+◌, ◌/◌, ◌%◌, ◌^◌, ◌≤◌, length};
ghost use Rattle.xts.specs.Units.{converted};
ghost use Rattle.xts.specs.Runs.{in_units, converted_run};

use aes::Direction;
use conversion::Conversion;

mod blocks;
mod conversion;

// A unit enciphered, or deciphered.
pub fn convert(direction: Direction, key: [u8; 64], number: u64, unit: [u8; 512]) -> [u8; 512]
    ensures { result ≡ converted direction key number unit }
{
    let mut into = unit;
    convert_units(direction, key, number, &unit, &mut into);
    into
}

// The units of from into as many bytes, the first with a number and each later one with the next number.
// Does nothing where the lengths differ or are not of whole units, or where a number would have more than 64 bits.
pub fn convert_run(direction: Direction, key: [u8; 64], number: u64, from: &[u8], into: &mut [u8])
    ensures { into.new ≡ converted_run direction key number from.now into.old }
{
    if from.len() != into.len() {
        return;
    }
    if from.len() % 512 != 0 {
        return;
    }
    if u64::MAX - number < from.len() as u64 / 512 {
        return;
    }
    convert_units(direction, key, number, from, into);
}

fn convert_units(direction: Direction, key: [u8; 64], number: u64, from: &[u8], into: &mut [u8])
    requires same_length { length into.old ≡ length from.now }
    requires whole_units { length from.now % 512 ≡ 0 }
    requires numbers_fit { number + length from.now / 512 ≤ 2 ^ 64 }
    ensures { into.new ≡ in_units (converted direction key) (length from.now / 512) number from.now }
{
    let tables = aes_tables::cipher_tables();
    let (halves, _) = key.as_chunks::<32>();
    let for_data = key_expansion::expand(&tables, halves[0]);
    let for_tweaks = key_expansion::expand(&tables, halves[1]);
    let conversion = Conversion {
        direction,
        tables: &tables,
        for_data: &for_data,
        for_tweaks: &for_tweaks,
    };
    conversion.convert_units(number, from, into);
}
