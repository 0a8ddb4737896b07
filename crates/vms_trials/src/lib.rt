//! Trials of the whole program over sources and sinks in memory: lanes that meet, and the histories that a run appends.
#![tactic(auto)]

#[cfg(test)]
mod devices;
#[cfg(test)]
mod kept_histories;
#[cfg(test)]
mod meetings;
#[cfg(test)]
mod runs;
#[cfg(test)]
mod texts;
