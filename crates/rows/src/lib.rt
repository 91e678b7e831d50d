// Rows of document 01 for tables, and what all rows share: the stations and the printing. `vectors` runs them.
// A function that prints promises that it is safe: what is printed is compared with stdout by the gate.
#![tactic(auto)]

pub mod check_rows;
pub mod field_rows;
pub mod print;
pub mod stations;
