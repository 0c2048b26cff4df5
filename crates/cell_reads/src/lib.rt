//! What the rules read of the cell, and the refusals by it, whatever keeps the cell.
#![tactic(auto)]

mod checks;
mod conditions;
mod moves;
mod reads;
mod rules;

pub use reads::Reads;
pub use rules::{
    admission_refusal, arrival_refusal, carriage_refusal, claim_refusal, clearing_refusal,
    delivery_refusal, failure_refusal, forging_refusal, lamp_refusal, refusal, repair_refusal,
    start_refusal, yield_refusal,
};
