//! The numbers of a call.
use gm_ports::Calls;
use std::alloc::{AllocError, Global};
use trial_script::Step;

/// The numbers behind the first word.
pub fn numbers_of(alloc: Global, step: &Step<'_>) -> Result<Vec<u64>, AllocError> {
    let mut numbers = Vec::new(alloc);
    for at in 1..step.words().len() {
        if let Some(number) = step.amount(at) {
            numbers.push(number)?;
        }
    }
    Ok(numbers)
}

/// The same as numbers of calls.
pub fn calls_of(alloc: Global, step: &Step<'_>) -> Result<Calls, AllocError> {
    let numbers = numbers_of(alloc, step)?;
    Calls::from_slice(alloc, numbers.as_slice())
}
