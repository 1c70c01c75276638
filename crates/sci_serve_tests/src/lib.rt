//! The tests of what the program serves, of traces, logs, talks and races, in a crate above them: so what they have proved isn't proved once
//! more for them.
#![tactic(auto)]

#[cfg(test)]
mod beginnings;
#[cfg(test)]
mod calls;
#[cfg(test)]
mod checks;
#[cfg(test)]
mod fixed;
#[cfg(test)]
mod growths;
#[cfg(test)]
mod large;
#[cfg(test)]
mod logs;
#[cfg(test)]
mod long_inputs;
#[cfg(test)]
mod outcomes;
#[cfg(test)]
mod reasons;
#[cfg(test)]
mod rows;
#[cfg(test)]
mod slow;
#[cfg(test)]
mod talks;
#[cfg(test)]
mod texts;
