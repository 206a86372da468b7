// Tests of the layers below the terminal: subframes whose grants were worked out by another program, and refusals.

#![tactic(auto)]

#[cfg(test)]
mod refused;
#[cfg(test)]
mod subframes;
