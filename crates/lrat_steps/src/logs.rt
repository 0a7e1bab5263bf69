//! Lists of logs.
use crate::log::Log;
use sat_base::Row;

/// Logs, in order.
pub type Logs = Row<Log>;
