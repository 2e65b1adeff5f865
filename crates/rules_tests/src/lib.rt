// Examples of reading: what is easy to get wrong in lists, tokens and rule texts.
#![tactic(auto)]

#[cfg(test)]
mod lists;
#[cfg(test)]
mod reading;
#[cfg(test)]
mod tokens;
