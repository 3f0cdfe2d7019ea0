#![tactic(auto)]

// Tests of frames: what is read, what is refused and where, and what is written.
#[cfg(test)]
mod checks;
#[cfg(test)]
mod faults;
#[cfg(test)]
mod frames;
#[cfg(test)]
mod reading;
#[cfg(test)]
mod summaries;
#[cfg(test)]
mod writing;
