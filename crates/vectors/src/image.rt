// What the image and the buffers are filled with.

// Bytes that differ from sector to sector and from seed to seed.
pub fn fill(bytes: &mut [u8], seed: u64) {
    let mut state = seed;
    for byte in bytes.iter_mut() {
        state = next(state);
        *byte = (state / 65_536 % 256) as u8;
    }
}

// A congruential generator modulo 2^32.
fn next(state: u64) -> u64 {
    (state % 4_294_967_296) * 1_664_525 + 1_013_904_223
}
