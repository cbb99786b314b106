// Reads and writes of plaintext on a view with a key: what is read is deciphered and what is written is
// enciphered, sector by sector (AES-256 in XTS), with the host sector's number for a tweak. They are judged as
// raw reads and writes are. Plaintext is never in the image, not even for a moment.
// Assumes nothing; no public function has a `requires`.
#![tactic(auto)]

ghost use Rattle.std.specs.Prelude.{◌≡◌, ◌+◌, ◌/◌, ◌%◌, ◌≤◌, length, take, drop};
ghost use Rattle.fields.specs.Bytes.{overlay};
ghost use Rattle.judgement.specs.Judging.{read_answer, write_answer};
ghost use Rattle.xts.specs.{Runs.in_units, Units.{enciphered, deciphered}};
ghost use Rattle.plaintext.specs.Plaintext.{plain_filled_by, plain_written_by, PlainReadPost, PlainWritePost};

use aes::Direction;
use answers::Refusal;
use layout::Layout;
use protection::Protection;
use view::{Outcome, View};

// A view and the key of its volume, which it keeps: 32 bytes for the data, then 32 for the tweak. A
// caller may make one up: nothing is assumed of it.
#[derive(Clone, Copy)]
pub struct KeyedView {
    pub view: View,
    pub key: [u8; 64],
}

impl KeyedView {
    // Fills the buffer with count sectors of the image, from user sector first on, each deciphered. A
    // refusal leaves the buffer as it was.
    pub fn read(
        self,
        image: &[u8],
        first: u64,
        count: u64,
        buffer: &mut [u8],
    ) -> Outcome<KeyedView, ()>
        ensures { PlainReadPost self image.now first count buffer.old result buffer.new }
    {
        let view = self.view;
        let layout = view.layout;
        let protection = view.protection;
        let key = self.key;
        let answer = read_sectors(layout, protection, key, image, first, count, buffer);
        Outcome { view: self, answer }
    }

    // Enciphers the buffer's sectors into the image, from user sector first on. Refuses 17 where the lock
    // is closed, and 18, at the first protected sector, where the extent has one, which closes the lock. A
    // refusal leaves the image as it was.
    pub fn write(
        self,
        image: &mut [u8],
        first: u64,
        count: u64,
        buffer: &[u8],
    ) -> Outcome<KeyedView, ()>
        ensures { PlainWritePost self image.old first count buffer.now result image.new }
    {
        let view = self.view;
        let layout = view.layout;
        let protection = view.protection;
        let key = self.key;
        let answer = write_sectors(
            layout,
            protection,
            view.locked,
            key,
            image,
            first,
            count,
            buffer,
        );
        let locked = answers::locked_after(view.locked, answers::refusal_number(&answer));
        Outcome {
            view: KeyedView {
                view: View {
                    layout,
                    protection,
                    locked,
                },
                key,
            },
            answer,
        }
    }
}

// A read over a layout and what is protected. No twin of `access::read`: what both need is behind the `?`.
fn read_sectors(
    layout: Layout,
    protection: Protection,
    key: [u8; 64],
    image: &[u8],
    first: u64,
    count: u64,
    buffer: &mut [u8],
) -> Result<(), Refusal>
    ensures value { result ≡ read_answer layout protection (length image.now) first count (length buffer.old) }
    ensures buffer_after { buffer.new ≡ plain_filled_by result layout key image.now first count buffer.old }
{
    let image_size = image.len() as u64;
    let start = judgement::read_extent(
        layout,
        protection,
        image_size,
        first,
        count,
        buffer.len() as u64,
    )?;
    decipher_from(key, image, start, buffer);
    Ok(())
}

// A write over a layout, what is protected and the lock.
fn write_sectors(
    layout: Layout,
    protection: Protection,
    locked: bool,
    key: [u8; 64],
    image: &mut [u8],
    first: u64,
    count: u64,
    buffer: &[u8],
) -> Result<(), Refusal>
    ensures value { result ≡ write_answer layout protection locked (length image.old) first count (length buffer.now) }
    ensures image_after { image.new ≡ plain_written_by result layout key image.old first count buffer.now }
{
    let image_size = image.len() as u64;
    let buffer_size = buffer.len() as u64;
    let start = judgement::write_extent(
        layout,
        protection,
        locked,
        image_size,
        first,
        count,
        buffer_size,
    )?;
    encipher_into(key, image, start, buffer);
    Ok(())
}

// The image's sectors from an offset on, as many as the buffer has room for, deciphered.
fn decipher_from(key: [u8; 64], image: &[u8], start: u64, buffer: &mut [u8])
    requires inside_image { start + length buffer.old ≤ length image.now }
    requires whole_sectors { length buffer.old % 512 ≡ 0 }
    ensures { buffer.new ≡ in_units (deciphered key) (length buffer.old / 512) (start / 512) (take (length buffer.old) (drop start image.now)) }
{
    let at = start as usize;
    let end = at + buffer.len();
    xts::convert_run(
        Direction::Decipher,
        key,
        start / 512,
        &image[at..end],
        buffer,
    );
}

// The buffer's sectors, enciphered, over the image's from an offset on.
fn encipher_into(key: [u8; 64], image: &mut [u8], start: u64, buffer: &[u8])
    requires inside_image { start + length buffer.now ≤ length image.old }
    requires whole_sectors { length buffer.now % 512 ≡ 0 }
    ensures { image.new ≡ overlay start (in_units (enciphered key) (length buffer.now / 512) (start / 512) buffer.now) image.old }
{
    let at = start as usize;
    let end = at + buffer.len();
    xts::convert_run(
        Direction::Encipher,
        key,
        start / 512,
        buffer,
        &mut image[at..end],
    );
}
