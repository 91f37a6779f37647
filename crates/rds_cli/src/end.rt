//! How a run ended.

use rds_io::LogFault;

/// How the run of a request ended (this project's own rule).
#[derive(Clone, Copy)]
pub enum End {
    /// No engine ran: the arguments were refused or asked for help.
    NotRun,
    /// The PI code is not four hexadecimal digits.
    BadPi,
    /// The window of `sim` is too long for the lateness.
    BadWindow,
    /// The slots to lose are no spans in ascending order.
    BadSpans,
    /// The engine ran to the end of its input.
    Done,
    /// The engine stopped at this fault.
    Fault(LogFault),
}
