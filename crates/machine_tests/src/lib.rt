//! Tests of the machine and of the program over it, in a crate of their own: a crate that has tests is
//! proved again for them.

#![tactic(auto)]

#[cfg(test)]
mod actors;
#[cfg(test)]
mod books;
#[cfg(test)]
mod devices;
#[cfg(test)]
mod expect;
#[cfg(test)]
mod kept;
#[cfg(test)]
mod legacy;
#[cfg(test)]
mod libraries;
#[cfg(test)]
mod orders;
#[cfg(test)]
mod program;
#[cfg(test)]
mod reports;
#[cfg(test)]
mod sharing;
#[cfg(test)]
mod sleeping;
#[cfg(test)]
mod takes;
