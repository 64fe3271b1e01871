//! Worked cases of models: the lease, each limit of the flat model, the order of rows, the shut model.
#![tactic(auto)]

#[cfg(test)]
mod build;
#[cfg(test)]
mod edges;
#[cfg(test)]
mod lease;
#[cfg(test)]
mod numbers;
#[cfg(test)]
mod owned;
#[cfg(test)]
mod shut;
