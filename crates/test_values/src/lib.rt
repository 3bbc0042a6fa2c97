//! Tests of what calls return, with values from outside: the generator, cards, deals and hands, the
//! language of conditions, what is said of mistakes in it, and texts that are read or written.
#![tactic(auto)]

#[cfg(test)]
mod around;
#[cfg(test)]
mod deals;
#[cfg(test)]
mod generator;
#[cfg(test)]
mod hands;
#[cfg(test)]
mod language;
#[cfg(test)]
mod lines_of_tricks;
#[cfg(test)]
mod measures;
#[cfg(test)]
mod mistakes;
#[cfg(test)]
mod numbers;
#[cfg(test)]
mod portable;
#[cfg(test)]
mod support;
#[cfg(test)]
mod taught;
#[cfg(test)]
mod written;
