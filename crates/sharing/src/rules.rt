// How much of its guarantee a group holds in reserve while its rival is served.
ghost use Rattle.std.specs.Prelude.{◌≡◌, ℕ, ◌≤◌, min};
ghost use Rattle.std.proofs.Math.Nat.{min-le_left, le_refl};

/// A holding rule: its meaning is one function of a group's guarantee and want. It refuses nothing, and asked twice it answers the same.
pub trait HoldingRule {
    ghost reserve: { Self → ℕ → ℕ → ℕ };

    fn reserve(&self, guarantee: u64, want: u64) -> u64
        ensures { result ≡ reserve self.now guarantee want };

    // No less than what the group wants of its guarantee.
    ghost at_least: { (s : Self) (g w : ℕ) → min g w ≤ reserve s g w };

    // No more than the guarantee.
    ghost at_most: { (s : Self) (g w : ℕ) → reserve s g w ≤ g };
}

/// Reserves what the group wants of its guarantee: the subframes of the groups are aligned, so its want is known.
#[derive(Clone, Copy)]
pub struct Aligned;

impl HoldingRule for Aligned {
    ghost reserve = { λ _ g w. min g w };

    ghost at_least = { λ _ g w. le_refl (min g w) };

    ghost at_most = { λ _ g w. min-le_left g w };

    fn reserve(&self, guarantee: u64, want: u64) -> u64 {
        guarantee.min(want)
    }
}

/// Reserves the whole guarantee, because the rival's want is unknown.
#[derive(Clone, Copy)]
pub struct Full;

impl HoldingRule for Full {
    ghost reserve = { λ _ g _. g };

    ghost at_least = { λ _ g w. min-le_left g w };

    ghost at_most = { λ _ g _. le_refl g };

    fn reserve(&self, guarantee: u64, _want: u64) -> u64 {
        guarantee
    }
}
