//! Tests of one member, of a world and of the program, by calls that no schedule makes.
#![tactic(auto)]

#[cfg(test)]
mod callers;
#[cfg(test)]
mod chains;
#[cfg(test)]
mod collected;
#[cfg(test)]
mod desks;
#[cfg(test)]
mod ends;
#[cfg(test)]
mod files;
#[cfg(test)]
mod members;
#[cfg(test)]
mod pooled;
#[cfg(test)]
mod runs;
#[cfg(test)]
mod same;
#[cfg(test)]
mod seats;
#[cfg(test)]
mod stated;
#[cfg(test)]
mod stops;
#[cfg(test)]
mod sums;
