// Examples of the memories: each refusal by its number, the largest arguments, landings, and piles of layers.
#![tactic(auto)]

#[cfg(test)]
mod every_memory;
#[cfg(test)]
mod held_memory;
#[cfg(test)]
mod immediate_memory;
#[cfg(test)]
mod quiescing_layer;
