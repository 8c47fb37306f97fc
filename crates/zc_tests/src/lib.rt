// The tests of more than one crate: calls that no run of the program makes; and a heart beside a plain pool, asked the same over long
// scripts, with the trees that its seals lead to. The crate has tests alone.
#![tactic(auto)]

#[cfg(test)]
mod adapters;
#[cfg(test)]
mod asking;
#[cfg(test)]
mod both;
#[cfg(test)]
mod dice;
#[cfg(test)]
mod parts;
#[cfg(test)]
mod same;
#[cfg(test)]
mod script;
#[cfg(test)]
mod slots;
