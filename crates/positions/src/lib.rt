// Positions in the tables of a track, by value: each is made before the sample with an index, and moved past one sample after the other. No table is begun
// again. A position may be another table's: what reads by it then answers something and is safe, and it is moved where the next numbers fit.
#![tactic(auto)]

pub mod dealt;
pub mod moving;
pub mod run;
pub mod sync;
