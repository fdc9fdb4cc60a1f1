// Tests of the two kinds of zones, mostly written once for both.
#![tactic(auto)]

#[cfg(test)]
mod refusals;
#[cfg(test)]
mod rows;
#[cfg(test)]
mod steps;
#[cfg(test)]
mod zones;
