// The output of the program `report`, written part after part into a lent buffer: the report of an accepted image, or the line of a
// refused one. The program only moves bytes.

#![tactic(auto)]

pub mod line;
pub mod numbers;
pub mod parts;
pub mod refused;
