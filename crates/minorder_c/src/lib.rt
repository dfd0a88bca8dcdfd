//! The order of the fewest nodes, its certificate, level counts, diagrams, sifting, the figures of
//! all orders and the checker of certificates, for callers in C. include/minorder.h declares them.
#![tactic(auto)]

mod above;
mod all_orders;
mod arguments;
mod certification;
mod diagrams;
mod exact;
mod exact_diagram;
mod levels;
mod many;
mod many_diagrams;
mod order_figures;
mod order_sizes;
mod pla_files;
mod rooms;
mod sift;
mod sifting_from;
mod stated;
mod status;
mod verdicts;
mod version;
