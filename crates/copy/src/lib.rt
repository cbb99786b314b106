// Bytes laid over others, whatever their count: a buffer into an image, a field into a header. No sector is known here.
// Assumes nothing; no function has a `requires`.
#![tactic(auto)]

ghost use Rattle.std.specs.Prelude.{◌≡◌};
ghost use Rattle.copy.specs.Copy.{copied};

// Lays all of from over the bytes of to from an offset on. Does nothing where they would reach past its end.
#[tactic(auto, using(crate::proofs::CopyLaws::copied_none))]
pub fn lay(from: &[u8], to: &mut [u8], at: usize)
    ensures { to.new ≡ copied at from.now to.old }
{
    if from.len() <= to.len() && at <= to.len() - from.len() {
        to[at..at + from.len()].copy_from_slice(from);
    }
}
