// A hidden volume in an outer one: the rule for a pair. No sum is made that could wrap.
// Assumes nothing; no function has a `requires`.
#![tactic(auto)]

ghost use Rattle.std.specs.Prelude.{◌≡◌, ◌+◌, leb};
ghost use Rattle.pairing.specs.Pairs.{nests, paired};

use answers::Refusal;
use layout::Layout;

// Tests a pair, a hidden volume and the outer one that it lies in: refuses 11 where either layout is not
// sound, then 12 where the two do not nest.
#[tactic(auto, unfolding(crate::specs::Pairs::paired))]
pub fn check_pair(outer: Layout, hidden: Layout) -> Result<(), Refusal>
    ensures { result ≡ paired outer hidden }
{
    if !layout::is_sound(outer) || !layout::is_sound(hidden) {
        return Err(Refusal::new(answers::UNSOUND));
    }
    if !do_nest(outer, hidden) {
        return Err(Refusal::new(answers::NOT_NESTED));
    }
    Ok(())
}

// Whether the second's data area lies inside the first's, and the two are of one disk: its size and its sectors'.
#[tactic(auto, unfolding(crate::specs::Pairs::nests))]
fn do_nest(outer: Layout, hidden: Layout) -> bool
    ensures { result ≡ nests outer hidden }
{
    outer.kind == layout::STANDARD
        && hidden.kind == layout::HIDDEN
        && outer.host_size == hidden.host_size
        && outer.sector_size == hidden.sector_size
        && outer.data_start <= hidden.data_start
        && fits(
            hidden.data_start - outer.data_start,
            hidden.data_size,
            outer.data_size,
        )
}

// Whether so many bytes behind an offset lie in a size.
fn fits(offset: u64, bytes: u64, size: u64) -> bool
    ensures { result ≡ leb (offset + bytes) size }
{
    match offset.checked_add(bytes) {
        Some(end) => end <= size,
        None => false,
    }
}
