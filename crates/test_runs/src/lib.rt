//! Tests of runs: their parts, such as shares, lanes, workers and the model of their events; what a
//! person sees while they last; whole runs, and the program over sinks in memory; and what is left
//! where memory is refused.
#![tactic(auto)]

#[cfg(test)]
mod beside;
#[cfg(test)]
mod counts;
#[cfg(test)]
mod events;
#[cfg(test)]
mod failing_sinks;
#[cfg(test)]
mod failures;
#[cfg(test)]
mod formats;
#[cfg(test)]
mod gates;
#[cfg(test)]
mod interrupted;
#[cfg(test)]
mod memory;
#[cfg(test)]
mod picks;
#[cfg(test)]
mod plain;
#[cfg(test)]
mod program;
#[cfg(test)]
mod rejected;
#[cfg(test)]
mod running;
#[cfg(test)]
mod shares;
#[cfg(test)]
mod showing;
#[cfg(test)]
mod support;
#[cfg(test)]
mod verdicts;
#[cfg(test)]
mod whole_runs;
#[cfg(test)]
mod work;
