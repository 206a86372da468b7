// Tests of the terminal: answers worked out by hand, and calls answered by another program.

#![tactic(auto)]

#[cfg(test)]
mod commands;
#[cfg(test)]
mod played;
#[cfg(test)]
mod refused;
#[cfg(test)]
mod steps;
#[cfg(test)]
mod tickets;
