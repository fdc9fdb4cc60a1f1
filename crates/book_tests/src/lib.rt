// Tests of the book, mostly written once for both kinds of zones.
#![tactic(auto)]

#[cfg(test)]
mod concludes;
#[cfg(test)]
mod examines;
#[cfg(test)]
mod puts;
#[cfg(test)]
mod rows;
#[cfg(test)]
mod slices;
#[cfg(test)]
mod steps;
#[cfg(test)]
mod strikes;
