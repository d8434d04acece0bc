// Times of a movie as its film stores them: its time scale and duration, and the edit list of a track.
#![tactic(auto)]

pub mod entries;
pub mod header;
