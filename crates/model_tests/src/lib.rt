//! Worked cases of the model's types, of the reader, of truth tables and of certificates.
#![tactic(auto)]

#[cfg(test)]
mod certificates;
#[cfg(test)]
mod covers;
#[cfg(test)]
mod devices;
#[cfg(test)]
mod diagrams;
#[cfg(test)]
mod pairs;
#[cfg(test)]
mod tables;
#[cfg(test)]
mod values;
