//! Calls over a byte stream, from the frames up, as tests: a client and a server on a flash in memory, and servings of one.
#![tactic(auto)]

#[cfg(test)]
mod exchanges;
#[cfg(test)]
mod flashes;
#[cfg(test)]
mod requests;
#[cfg(test)]
mod servings;
#[cfg(test)]
mod streams;
