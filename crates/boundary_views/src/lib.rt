// The making of views, over numbers: each returns 0 where it accepts, and else the refusal number and
// changes nothing.
// Assumes nothing; no public function has a `requires`.
#![tactic(auto)]

ghost use Rattle.answers.specs.Answers.{refusal_number};
ghost use Rattle.std.specs.Prelude.{◌≡◌};
ghost use Rattle.making.specs.Views.{plain_view, protected_view};
ghost use Rattle.boundary_numbers.specs.BoundaryNumbers.{layout_from, viewed_left};

use boundary_numbers::{LAYOUT_SIZE, VIEW_SIZE};

// A view of a volume alone, its lock open.
pub fn plain(layout: &[u64; LAYOUT_SIZE], view: &mut [u64; VIEW_SIZE]) -> u64
    ensures value { result ≡ refusal_number (plain_view (layout_from layout.now)) }
    ensures view_after { view.new ≡ viewed_left (plain_view (layout_from layout.now)) view.old }
{
    let told = boundary_numbers::layout_from(layout);
    boundary_numbers::give_view(making::plain(told), view)
}

// A view of an outer volume whose writes may not touch a hidden volume's data area, its lock open.
pub fn protected(
    outer: &[u64; LAYOUT_SIZE],
    hidden: &[u64; LAYOUT_SIZE],
    view: &mut [u64; VIEW_SIZE],
) -> u64
    ensures value { result ≡ refusal_number (protected_view (layout_from outer.now) (layout_from hidden.now)) }
    ensures view_after { view.new ≡ viewed_left (protected_view (layout_from outer.now) (layout_from hidden.now)) view.old }
{
    let around = boundary_numbers::layout_from(outer);
    let within = boundary_numbers::layout_from(hidden);
    boundary_numbers::give_view(making::protected(around, within), view)
}
