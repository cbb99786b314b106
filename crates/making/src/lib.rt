// How a view of a volume is made: alone, or with a hidden volume protected.
// Assumes nothing; no function has a `requires`.
#![tactic(auto)]

ghost use Rattle.std.specs.Prelude.{◌≡◌};
ghost use Rattle.making.specs.Views.{plain_view, protected_view};

use answers::Refusal;
use layout::Layout;
use view::View;

// A view of a volume alone. Refuses 11 for a layout that is not sound.
#[tactic(auto, unfolding(crate::specs::Views::plain_view, crate::specs::Views::plain_of))]
pub fn plain(layout: Layout) -> Result<View, Refusal>
    ensures { result ≡ plain_view layout }
{
    if !layout::is_sound(layout) {
        return Err(Refusal::new(answers::UNSOUND));
    }
    Ok(View {
        layout,
        protection: None,
        locked: false,
    })
}

// A view of an outer volume whose writes may not touch a hidden volume's data area. Refuses 11 where
// either layout is not sound, then 12 where the two do not nest.
pub fn protected(outer: Layout, hidden: Layout) -> Result<View, Refusal>
    ensures { result ≡ protected_view outer hidden }
{
    pairing::check_pair(outer, hidden)?;
    let end = hidden.data_start + hidden.data_size;
    Ok(View {
        layout: outer,
        protection: Some((hidden.data_start, end)),
        locked: false,
    })
}
