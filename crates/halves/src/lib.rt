//! The steps of one side of a search, over any measure, map and fringe, with the labels in a lent row.
//
// A row and its fringe go together through these functions as two arguments. As fields of one struct they would owe, at each
// function, two clauses that they are still the lender's, in place of the two, `agree` and `steady`, that it would save.
#![tactic(auto)]

pub mod beginning;
pub mod expanding;
pub mod meetings;
pub mod origins;
pub mod relaxing;
pub mod rows;
pub mod settling;

pub use beginning::{begin, reach, wipe};
pub use expanding::expand;
pub use meetings::best_meeting;
pub use origins::start_of;
pub use relaxing::relax;
pub use rows::{blank, label_at};
pub use settling::settle_least;
