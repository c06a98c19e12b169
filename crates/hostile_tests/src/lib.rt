//! The tests of hostile use: texts that are made to cost much, scripts that are cut off, ends that fail at each of their
//! calls, and connections that end at a bad time. They cross all crates, so they stand above all of them.
#![tactic(auto)]

#[cfg(test)]
mod ends;
#[cfg(test)]
mod inputs;
#[cfg(test)]
mod links;
#[cfg(test)]
mod runs;
