//! The rows of the cleanup stack and of the file steps over a root in memory, also with a fault, a stop or a loss of power at
//! each step.
#![tactic(auto)]

#[cfg(test)]
mod alias_rows;
#[cfg(test)]
mod breaking;
#[cfg(test)]
mod fault_rows;
#[cfg(test)]
mod file_acts;
#[cfg(test)]
mod file_breaking;
#[cfg(test)]
mod file_denials;
#[cfg(test)]
mod file_rows;
#[cfg(test)]
mod noting;
#[cfg(test)]
mod removal_rows;
#[cfg(test)]
mod root;
#[cfg(test)]
mod stack_breaking;
#[cfg(test)]
mod stack_calls;
#[cfg(test)]
mod stack_choices;
#[cfg(test)]
mod stack_rows;
#[cfg(test)]
mod unpacking;
