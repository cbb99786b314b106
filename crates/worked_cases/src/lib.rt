// The worked cases, stated in specs/ and computed in proofs/. Assumes nothing; no function has a `requires`.
#![tactic(auto)]

ghost use Rattle.worked_cases.specs.WorkedCases.{AsWorked};

// Does nothing: its contract is that every case is as the rules say, so that the crate is proved only with
// a proof of it.
pub fn worked()
    ensures { AsWorked }
{}
