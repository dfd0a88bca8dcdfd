//! Worked numberings of pairs, class tables and widths.
#![tactic(auto)]

#[cfg(test)]
mod numberings;
#[cfg(test)]
mod orbits;
#[cfg(test)]
mod problems;
#[cfg(test)]
mod tables;
#[cfg(test)]
mod walks;
#[cfg(test)]
mod widths;
