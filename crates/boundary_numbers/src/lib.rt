// Layouts and views as the numbers that cross the boundary for C and Rust: read from them, and stored
// where an answer holds one. Where an answer is stored its refusal number is returned, 0 for an
// acceptance, and a refusal changes nothing.
// Assumes nothing; no public function has a `requires`.
#![tactic(auto)]

ghost use Rattle.std.specs.Prelude.{◌≡◌, ◌≤◌, length};
ghost use Rattle.answers.specs.Answers.{refusal_number};
ghost use Rattle.boundary_numbers.specs.BoundaryNumbers.{layout_size, layout_numbers, layout_from, protection_numbers, protection_from};
ghost use Rattle.boundary_numbers.specs.BoundaryNumbers.{view_numbers, view_from, given_or, opened_left, viewed_left};

use answers::Refusal;
use layout::Layout;
use protection::Protection;
use view::View;

// How many numbers a layout has, and a view: its layout's, the three of its protection, and the lock.
pub const LAYOUT_SIZE: usize = 9;

pub const VIEW_SIZE: usize = LAYOUT_SIZE + 4;

// Where a view has its own numbers: whether a range is protected, its first byte, the byte past its end, and
// the lock.
const PROTECTED: usize = LAYOUT_SIZE;

const FIRST: usize = LAYOUT_SIZE + 1;

const END: usize = LAYOUT_SIZE + 2;

pub const LOCK: usize = LAYOUT_SIZE + 3;

// The layout that nine numbers tell. Functions and no `From`, here and below: the order of the numbers is the C
// interface's, and not a layout's own.
pub fn layout_from(numbers: &[u64; LAYOUT_SIZE]) -> Layout
    ensures { result ≡ layout_from numbers.now }
{
    read_layout(numbers)
}

// The view that thirteen numbers tell.
#[tactic(auto, unfolding(crate::specs::BoundaryNumbers::view_from))]
pub fn view_from(numbers: &[u64; VIEW_SIZE]) -> View
    ensures { result ≡ view_from numbers.now }
{
    View {
        layout: read_layout(numbers),
        protection: protection_from(numbers[PROTECTED], numbers[FIRST], numbers[END]),
        locked: numbers[LOCK] != 0,
    }
}

// Stores what an answer holds, and returns its refusal number, 0 for an acceptance.
#[tactic(auto, unfolding(answers::specs::Answers::refusal_number, crate::specs::BoundaryNumbers::given_or))]
pub fn give<T: Drop>(answer: Result<T, Refusal>, place: &mut T) -> u64
    ensures value { result ≡ refusal_number answer }
    ensures place_after { place.new ≡ given_or answer place.old }
{
    match answer {
        Ok(given) => {
            *place = given;
            0
        }
        Err(refusal) => u64::from(refusal.number),
    }
}

// Stores the layout of an opening.
pub fn give_layout(answer: Result<Layout, Refusal>, numbers: &mut [u64; LAYOUT_SIZE]) -> u64
    ensures value { result ≡ refusal_number answer }
    ensures numbers_after { numbers.new ≡ opened_left answer numbers.old }
{
    give(answer.map(layout_numbers), numbers)
}

// Stores a view that was made.
pub fn give_view(answer: Result<View, Refusal>, numbers: &mut [u64; VIEW_SIZE]) -> u64
    ensures value { result ≡ refusal_number answer }
    ensures numbers_after { numbers.new ≡ viewed_left answer numbers.old }
{
    give(answer.map(view_numbers), numbers)
}

// The layout that the first numbers of a layout or a view tell.
#[tactic(auto, unfolding(crate::specs::BoundaryNumbers::layout_from))]
fn read_layout(numbers: &[u64]) -> Layout
    requires { layout_size ≤ length numbers.now }
    ensures { result ≡ layout_from numbers.now }
{
    Layout {
        host_size: numbers[0],
        kind: numbers[1],
        magic: numbers[2],
        version: numbers[3],
        min_program_version: numbers[4],
        data_start: numbers[5],
        data_size: numbers[6],
        candidate: numbers[7],
        sector_size: numbers[8],
    }
}

// The numbers of a layout, in their order.
#[tactic(auto, unfolding(crate::specs::BoundaryNumbers::layout_numbers))]
fn layout_numbers(layout: Layout) -> [u64; LAYOUT_SIZE]
    ensures { result ≡ layout_numbers layout }
{
    [
        layout.host_size,
        layout.kind,
        layout.magic,
        layout.version,
        layout.min_program_version,
        layout.data_start,
        layout.data_size,
        layout.candidate,
        layout.sector_size,
    ]
}

// The numbers of a view: its layout's, and behind them its own.
#[tactic(auto, unfolding(crate::specs::BoundaryNumbers::view_numbers, crate::specs::BoundaryNumbers::layout_numbers))]
fn view_numbers(view: View) -> [u64; VIEW_SIZE]
    ensures { result ≡ view_numbers view }
{
    let [protected, first, end] = protection_numbers(view.protection);
    let mut numbers = [0; VIEW_SIZE];
    numbers[..LAYOUT_SIZE].copy_from_slice(&layout_numbers(view.layout));
    numbers[LAYOUT_SIZE..].copy_from_slice(&[protected, first, end, u64::from(view.locked)]);
    numbers
}

#[tactic(auto, unfolding(crate::specs::BoundaryNumbers::protection_from))]
fn protection_from(protected: u64, first: u64, end: u64) -> Protection
    ensures { result ≡ protection_from protected first end }
{
    (protected != 0).then_some((first, end))
}

#[tactic(auto, unfolding(crate::specs::BoundaryNumbers::protection_numbers))]
fn protection_numbers(protection: Protection) -> [u64; 3]
    ensures { result ≡ protection_numbers protection }
{
    match protection {
        None => [0; 3],
        Some((first, end)) => [1, first, end],
    }
}
