//! Tests by public calls, of what no clause says and the program doesn't show.
#![tactic(auto)]

#[cfg(test)]
mod ends;
#[cfg(test)]
mod expecting;
#[cfg(test)]
mod faults;
#[cfg(test)]
mod lists;
#[cfg(test)]
mod log;
#[cfg(test)]
mod values;
#[cfg(test)]
mod wire;
