// Figures worked out by hand, for lists of records, measures and delay sources.
#![tactic(auto)]

#[cfg(test)]
mod layers;
#[cfg(test)]
mod lists;
#[cfg(test)]
mod loads;
#[cfg(test)]
mod rows;
#[cfg(test)]
mod tables;
