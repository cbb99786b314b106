// Views of a volume: reads and writes on one, and where these find their bytes. Data is already enciphered.
// Assumes nothing; no function has a `requires`.
#![tactic(auto)]

ghost use Rattle.std.specs.Prelude.{◌≡◌};
ghost use Rattle.view.specs.Outcomes.{read_placed, write_placed, ReadPost, WritePost};

use answers::Refusal;
use layout::Layout;
use protection::Protection;

// A volume to read and write: its layout, what its writes may not touch, and the write lock. A caller
// may make one up: nothing is assumed of it.
#[derive(Clone, Copy)]
pub struct View {
    pub layout: Layout,
    pub protection: Protection,
    pub locked: bool,
}

// The view handed back, whatever kind of view it is, and the answer.
#[derive(Clone, Copy)]
pub struct Outcome<V, T> {
    pub view: V,
    pub answer: Result<T, Refusal>,
}

impl View {
    // Copies count sectors, from user sector first on, out of the image and fills the buffer with
    // them. The lock and the protected range are not looked at. A refusal leaves the buffer as it was.
    pub fn read(self, image: &[u8], first: u64, count: u64, buffer: &mut [u8]) -> Outcome<View, ()>
        ensures { ReadPost self image.now first count buffer.old result buffer.new }
    {
        let layout = self.layout;
        let protection = self.protection;
        let answer = access::read(layout, protection, image, first, count, buffer);
        Outcome { view: self, answer }
    }

    // Copies the buffer into the image's sectors, from user sector first on. Refuses 17 where the
    // lock is closed, and 18, at the first protected sector, where the extent has one, which closes the
    // lock. A refusal leaves the image as it was.
    pub fn write(self, image: &mut [u8], first: u64, count: u64, buffer: &[u8]) -> Outcome<View, ()>
        ensures { WritePost self image.old first count buffer.now result image.new }
    {
        let layout = self.layout;
        let protection = self.protection;
        let answer = access::write(layout, protection, self.locked, image, first, count, buffer);
        let locked = answers::locked_after(self.locked, answers::refusal_number(&answer));
        Outcome {
            view: View {
                layout,
                protection,
                locked,
            },
            answer,
        }
    }

    // Where in the host a read of such sizes finds its bytes: the extent's first byte, or the read's
    // refusal.
    pub fn read_extent(
        self,
        image_size: u64,
        first: u64,
        count: u64,
        buffer_size: u64,
    ) -> Outcome<View, u64>
        ensures { result ≡ read_placed self image_size first count buffer_size }
    {
        let layout = self.layout;
        let protection = self.protection;
        let answer = judgement::read_extent(
            layout,
            protection,
            image_size,
            first,
            count,
            buffer_size,
        );
        Outcome { view: self, answer }
    }

    // Where in the host a write of such sizes finds its bytes, or the write's refusal. 18 closes the lock.
    pub fn write_extent(
        self,
        image_size: u64,
        first: u64,
        count: u64,
        buffer_size: u64,
    ) -> Outcome<View, u64>
        ensures { result ≡ write_placed self image_size first count buffer_size }
    {
        let layout = self.layout;
        let protection = self.protection;
        let answer = judgement::write_extent(
            layout,
            protection,
            self.locked,
            image_size,
            first,
            count,
            buffer_size,
        );
        let locked = answers::locked_after(self.locked, answers::refusal_number(&answer));
        Outcome {
            view: View {
                layout,
                protection,
                locked,
            },
            answer,
        }
    }
}
