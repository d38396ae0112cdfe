//! Tests of transactions and upsets by themselves: sets of lines, memory under transactions, windows and strikes. No program goes by them yet.
#![tactic(auto)]

#[cfg(test)]
mod memories;
#[cfg(test)]
mod sets;
#[cfg(test)]
mod upsets;
