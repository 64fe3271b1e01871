//! Worked numbers for rows, settings and formulas.
#![tactic(auto)]

#[cfg(test)]
mod build;
#[cfg(test)]
mod lawful;
#[cfg(test)]
mod met;
#[cfg(test)]
mod replaced;
#[cfg(test)]
mod shown;
