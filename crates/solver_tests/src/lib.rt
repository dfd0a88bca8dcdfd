//! Worked cases of sifting, of layers and their boards, and of the solver.
#![tactic(auto)]

#[cfg(test)]
mod boards;
#[cfg(test)]
mod layers;
#[cfg(test)]
mod searches;
#[cfg(test)]
mod sifts;
#[cfg(test)]
mod workers;
