//! The tests of calls that are refused memory, each in the module of the crate whose call it is. Each marks one call,
//! so that a library below the program can refuse memory to that call alone (docs/HOSTILE.md). It says which answers
//! are right with ample memory and which without; those of `apply` and `turn` also that what the call was lent is as it
//! was where memory was wanting, and that of `run_schedule` that the steps before stand. The tests of the calls of
//! cell_workers stand in test_workers, whose rooms they need, and those of the command line in test_orders.
#![tactic(auto)]

#[cfg(test)]
mod audit;
#[cfg(test)]
mod book;
#[cfg(test)]
mod branches;
#[cfg(test)]
mod desk;
#[cfg(test)]
mod drive;
#[cfg(test)]
mod explain;
#[cfg(test)]
mod journal;
#[cfg(test)]
mod ledger;
#[cfg(test)]
mod orders;
#[cfg(test)]
mod runs;
#[cfg(test)]
mod sample;
#[cfg(test)]
mod settings;
#[cfg(test)]
mod show;
#[cfg(test)]
mod sim;
#[cfg(test)]
mod turns;
