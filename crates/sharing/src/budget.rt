// A total whose guarantees it can keep.
ghost use Rattle.std.specs.Prelude.{◌+◌, ◌≤◌};

use crate::groups::Shares;

/// A total and its guarantees, which come to at most the total together.
#[derive(Clone, Copy)]
pub struct Budget {
    pub shares: Shares,
    ghost kept: { shares.guarantees.master + shares.guarantees.secondary ≤ shares.total },
}
