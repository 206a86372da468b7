// What a claim on a room is.
ghost use Rattle.std.specs.Prelude.{◌≡◌, ℕ};

/// A claim on a room: it has a want and takes a grant, both in nanowatts.
pub trait Claim {
    // What the claim wants.
    ghost asks: { Self → ℕ };

    // What it was granted last.
    ghost holds: { Self → ℕ };

    // The claim once it has taken a grant.
    ghost given: { Self → ℕ → Self };

    fn want(&self) -> u64
        ensures { result ≡ asks self.now };

    fn grant(&mut self, nanowatts: u64)
        ensures { self.new ≡ given self.old nanowatts };

    ghost takes_the_grant: { (c : Self) (n : ℕ) → holds (given c n) ≡ n };

    ghost keeps_the_want: { (c : Self) (n : ℕ) → asks (given c n) ≡ asks c };
}
