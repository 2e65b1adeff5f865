// Worked examples of the method: small graphs, explored by a plain loop.
#![tactic(auto)]

#[cfg(test)]
mod explored;
#[cfg(test)]
mod tests;
