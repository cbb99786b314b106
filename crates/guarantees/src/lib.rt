// What is claimed of the crates below, stated in specs/ and proved in proofs/. Claims.antt holds every
// claim. Assumes nothing; no function has a `requires`.
#![tactic(auto)]

ghost use Rattle.guarantees.specs.Claims.{Claims};

// Does nothing: its contract is the record of all claims, so that the crate is proved only with a proof
// of each.
pub fn demands()
    ensures { Claims }
{}
