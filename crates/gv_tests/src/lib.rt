//! Tests that no line of `gv_probe` can say: each file has those of the library with its name.
#![tactic(auto)]

#[cfg(test)]
mod base;
#[cfg(test)]
mod edits;
#[cfg(test)]
mod load;
#[cfg(test)]
mod logic;
#[cfg(test)]
mod session;
#[cfg(test)]
mod trail;
#[cfg(test)]
mod visible;
mod visible_caller;
