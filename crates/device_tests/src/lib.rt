//! Tests of devices, moments, walks and the turnstile from outside, for what no clause says.
#![tactic(auto)]

#[cfg(test)]
mod devices;
#[cfg(test)]
mod fakes;
#[cfg(test)]
mod levels;
#[cfg(test)]
mod moments;
#[cfg(test)]
mod sockets;
#[cfg(test)]
mod turns;
