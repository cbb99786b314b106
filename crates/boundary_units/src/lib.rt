// Units enciphered and deciphered in their place, with a borrowed key.
// Assumes nothing; no public function has a `requires`.
#![tactic(auto)]

ghost use Rattle.std.specs.Prelude.{◌≡◌};
ghost use Rattle.xts.specs.Units.{converted, enciphered, deciphered};

use aes::Direction;

// A unit enciphered in its place.
pub fn encipher(key: &[u8; 64], tweak_number: u64, unit: &mut [u8; 512])
    ensures { unit.new ≡ enciphered key.now tweak_number unit.old }
{
    convert(Direction::Encipher, key, tweak_number, unit);
}

// A unit deciphered in its place.
pub fn decipher(key: &[u8; 64], tweak_number: u64, unit: &mut [u8; 512])
    ensures { unit.new ≡ deciphered key.now tweak_number unit.old }
{
    convert(Direction::Decipher, key, tweak_number, unit);
}

fn convert(direction: Direction, key: &[u8; 64], tweak_number: u64, unit: &mut [u8; 512])
    ensures { unit.new ≡ converted direction key.now tweak_number unit.old }
{
    *unit = xts::convert(direction, *key, tweak_number, *unit);
}
