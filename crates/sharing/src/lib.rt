// One total shared by two cell groups, rank by rank, while each group holds a reserve of its guarantee.

#![tactic(auto)]

mod budget;
mod demand;
mod groups;
mod guarantees;
mod ranks;
mod rules;
mod serving;

pub use budget::Budget;
pub use demand::{Demand, fits};
pub use groups::{Group, PerGroup, Shares};
pub use guarantees::guarantee;
pub use ranks::{Class, Rank, ranked};
pub use rules::{Aligned, Full, HoldingRule};
pub use serving::{Sharing, share};
