//! The row loops: a word function run across the columns of a stripe, the values filled where they lie.
#![tactic(auto)]

pub mod loops;
pub mod many;

ghost use Rattle.std.specs.Prelude.{◌+◌, ◌≤◌};

// Columns `first` to `first + count - 1` of a batch of `rows` rows, `width` columns wide. The array of the batch is C's and is lent, and
// the contracts speak of its words before and after a call: so each function takes it beside the stripe, and asks for its length.
#[derive(Clone, Copy)]
pub struct Stripe {
    pub rows: usize,
    pub width: usize,
    pub first: usize,
    pub count: usize,
    // the stripe lies within the batch
    ghost within: { first + count ≤ width },
}
