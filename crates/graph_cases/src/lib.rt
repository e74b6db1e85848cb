// Lists of acts on a new timing graph, with the answers that the rules give, worked out by hand.
#![tactic(auto)]

#[cfg(test)]
mod acts;
#[cfg(test)]
mod calls;
#[cfg(test)]
mod loads;
#[cfg(test)]
mod sets;
#[cfg(test)]
mod trials;
