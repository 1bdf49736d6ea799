//! Checks of the layers below a site, worked by hand, each public call with ample memory: values that join, stamps and versions, the
//! protocol's texts and the rules for one entry, held values and what they stand on, parcels and their frames.
#![tactic(auto)]

#[cfg(test)]
mod base;
#[cfg(test)]
mod frame;
#[cfg(test)]
mod held;
#[cfg(test)]
mod text;
