// Tests of cells: moves of loops worked out by hand, and powers of another program.

#![tactic(auto)]

#[cfg(test)]
mod moves;
#[cfg(test)]
mod open_loop;
