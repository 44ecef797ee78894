//! Tests of links, nodes and traces, in one crate so that no crate is proved a second time for its tests.
#![tactic(auto)]

#[cfg(test)]
mod apart;
#[cfg(test)]
mod booting;
#[cfg(test)]
mod gates;
#[cfg(test)]
mod links;
#[cfg(test)]
mod steps;
#[cfg(test)]
mod traces;
