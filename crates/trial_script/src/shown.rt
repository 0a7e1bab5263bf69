//! How a call answers.
use std::alloc::AllocError;

/// Adds a line to what a call answers, and says that the call is known.
pub fn show(line: &str, out: &mut String) -> Result<bool, AllocError> {
    out.push_str(line)?;
    out.push_str("\n")?;
    Ok(true)
}

/// Says that a call is known, once its answer was told.
pub fn known(told: Result<(), AllocError>) -> Result<bool, AllocError> {
    match told {
        Ok(()) => Ok(true),
        Err(AllocError) => Err(AllocError),
    }
}

/// Holds what a call made, in place of what was held, and says that the call is known.
pub fn hold<T: Drop>(
    place: &mut Option<T>,
    made: Result<T, AllocError>,
) -> Result<bool, AllocError> {
    *place = Some(made?);
    Ok(true)
}
