// Tests of settled subframes: powers worked out by hand.

#![tactic(auto)]

#[cfg(test)]
mod subframes;
