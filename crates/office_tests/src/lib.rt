//! Tests of the office from outside: under other limits, with its callers in threads, and over connections and lines.
#![tactic(auto)]

#[cfg(test)]
mod ahead;
#[cfg(test)]
mod connections;
#[cfg(test)]
mod endless;
#[cfg(test)]
mod exchanges;
#[cfg(test)]
mod halls;
#[cfg(test)]
mod http;
#[cfg(test)]
mod limits;
#[cfg(test)]
mod servers;
#[cfg(test)]
mod still;
#[cfg(test)]
mod words;
