// Records that ask for the round keys of a key, or for a block or a unit to be enciphered and then deciphered:
// of a unit the tweak number; the key or keys; and the block or unit.
use crate::body::Body;
use crate::print::{Checksum, Hex};
use crate::requests::Unit;
use crate::streams::Streams;
use aes::Direction;
use std::{array, io};

pub fn run_key(streams: &mut Streams, mut body: Body) -> io::Result<()> {
    let tables = aes_tables::cipher_tables();
    for key in key_expansion::expand(&tables, body.bytes()) {
        print_block(streams, &key)?;
    }
    Ok(())
}

pub fn run_block(streams: &mut Streams, mut body: Body) -> io::Result<()> {
    let tables = aes_tables::cipher_tables();
    let keys = key_expansion::expand(&tables, body.bytes());
    let block = array::from_fn(|_| body.bytes());
    let enciphered = aes::convert_block(&tables, keys, Direction::Encipher, block);
    let deciphered = aes::convert_block(&tables, keys, Direction::Decipher, enciphered);
    print_block(streams, &enciphered)?;
    print_block(streams, &deciphered)
}

// The bytes of a block, column by column.
fn print_block(streams: &mut Streams, block: &[[u8; 4]; 4]) -> io::Result<()> {
    streams.print(Hex(block.as_flattened()))
}

pub fn run_unit(streams: &mut Streams, unit: Unit, mut body: Body) -> io::Result<()> {
    let tweak_number = body.number();
    let keys = body.bytes();
    let mut bytes = body.bytes();
    ondristela::ondristela_encipher(&keys, tweak_number, &mut bytes);
    print_unit(streams, unit, &bytes)?;
    ondristela::ondristela_decipher(&keys, tweak_number, &mut bytes);
    print_unit(streams, unit, &bytes)
}

// The bytes of a published one, and a checksum of any other.
fn print_unit(streams: &mut Streams, unit: Unit, bytes: &[u8; 512]) -> io::Result<()> {
    match unit {
        Unit::Published => streams.print(Hex(bytes)),
        Unit::Other => streams.print(Checksum(bytes)),
    }
}
