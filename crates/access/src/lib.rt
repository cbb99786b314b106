// Reads and writes of a volume's sectors in its host's image: each is judged, and an accepted one moves its
// bytes. Data is already enciphered. What is protected and the lock are a view's, and passed with the layout, since
// `View` stands above.
// Assumes nothing; no public function has a `requires`.
#![tactic(auto)]

ghost use Rattle.std.specs.Prelude.{◌≡◌, ◌+◌, ◌≤◌, length, take, drop};
ghost use Rattle.fields.specs.Bytes.{overlay};
ghost use Rattle.judgement.specs.Judging.{read_answer, write_answer};
ghost use Rattle.access.specs.Moving.{filled_by, written_by};

use answers::Refusal;
use layout::Layout;
use protection::Protection;

// Copies count sectors, from user sector first on, out of the image and fills the buffer with them. A
// refusal leaves the buffer as it was.
pub fn read(
    layout: Layout,
    protection: Protection,
    image: &[u8],
    first: u64,
    count: u64,
    buffer: &mut [u8],
) -> Result<(), Refusal>
    ensures value { result ≡ read_answer layout protection (length image.now) first count (length buffer.old) }
    ensures buffer_after { buffer.new ≡ filled_by result layout image.now first count buffer.old }
{
    let image_size = image.len() as u64;
    let start = judgement::read_extent(
        layout,
        protection,
        image_size,
        first,
        count,
        buffer.len() as u64,
    )?;
    fill(image, start, buffer);
    Ok(())
}

// Copies the buffer into the image's sectors, from user sector first on. A refusal leaves the image as
// it was.
pub fn write(
    layout: Layout,
    protection: Protection,
    locked: bool,
    image: &mut [u8],
    first: u64,
    count: u64,
    buffer: &[u8],
) -> Result<(), Refusal>
    ensures value { result ≡ write_answer layout protection locked (length image.old) first count (length buffer.now) }
    ensures image_after { image.new ≡ written_by result layout image.old first buffer.now }
{
    let image_size = image.len() as u64;
    let buffer_size = buffer.len() as u64;
    let start = judgement::write_extent(
        layout,
        protection,
        locked,
        image_size,
        first,
        count,
        buffer_size,
    )?;
    lay(image, start, buffer);
    Ok(())
}

// The image's bytes from an offset on, as many as the buffer has.
fn fill(image: &[u8], start: u64, buffer: &mut [u8])
    requires { start + length buffer.old ≤ length image.now }
    ensures { buffer.new ≡ take (length buffer.old) (drop start image.now) }
{
    let start = start as usize;
    let end = start + buffer.len();
    copy::lay(&image[start..end], buffer, 0);
}

// The buffer over the image's bytes from an offset on.
fn lay(image: &mut [u8], start: u64, buffer: &[u8])
    requires { start + length buffer.now ≤ length image.old }
    ensures { image.new ≡ overlay start buffer.now image.old }
{
    copy::lay(buffer, image, start as usize);
}
