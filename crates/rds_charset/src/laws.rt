//! Laws about the printed form of all texts. Each function here does nothing: its contract is the law, for callers
//! whose own contracts need it.

ghost use Rattle.rds_charset.specs.Displays.{DisplayedTakesThree};
ghost use Rattle.rds_charset.specs.Laws.{PrintedIsReadBack, PrintedIsText, PrintedTakesFour, TextIsReadOneWay};

/// States that a printed text is read as the bytes from which it was printed, whatever bytes they are.
pub fn printed_is_read_back()
    ensures { PrintedIsReadBack }
{}

/// States that a text is read as at most one list of bytes.
pub fn text_is_read_one_way()
    ensures { TextIsReadOneWay }
{}

/// States that a text of n bytes has a printed form of at most 4n bytes.
pub fn printed_takes_four()
    ensures { PrintedTakesFour }
{}

/// States that a text of n bytes has at most 3n bytes on a display.
pub fn displayed_takes_three()
    ensures { DisplayedTakesThree }
{}

/// States that the printed form is UTF-8, so it can be read as a `&str`.
pub fn printed_is_text()
    ensures { PrintedIsText }
{}
