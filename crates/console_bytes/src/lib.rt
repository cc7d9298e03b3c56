// The console's calls that have no part in a run: on sheets, records and schedules, which all are bytes. A line is the call
// that it is handed to, and its answer goes to standard output by way of a lent text.
#![tactic(auto)]

pub mod buffers;
pub mod record_calls;
pub mod sheet_calls;
