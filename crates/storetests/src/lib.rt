#![tactic(auto)]

// Tests of records and stores.
#[cfg(test)]
mod records;
#[cfg(test)]
mod stores;
