//! Laws of text in HTML, each on a function that does nothing.

ghost use Rattle.bgp_html.specs.Escaped.{EscapedTextIsNoMarkup, EscapedTextIsThatTextAlone};
ghost use Rattle.bgp_html.specs.Groups.{LinesStandTogether};
ghost use Rattle.bgp_html.specs.Noted.{NotesAreLines};
ghost use Rattle.bgp_html.specs.Reading.{LinesArePrinted, WordsAreNoTags, WordsAreSeen};
ghost use Rattle.bgp_html.specs.Report.{ReportsSayTheSame};

/// Nothing of a text is markup: no octet of it begins or ends a tag, or ends the value of an
/// attribute.
pub fn escaped_text_is_no_markup()
    ensures { EscapedTextIsNoMarkup }
{}

/// Nothing of a text is lost: texts that stand there in the same octets are one text.
pub fn escaped_text_is_that_text_alone()
    ensures { EscapedTextIsThatTextAlone }
{}

/// A reader of HTML sees the words of what is written, each once and in their order, and nothing
/// else.
pub fn words_are_seen()
    ensures { WordsAreSeen }
{}

/// Whoever reads what stands in the elements that are called samp gets the lines of what is
/// written, and nothing else.
pub fn lines_are_printed()
    ensures { LinesArePrinted }
{}

/// Each tag of what is written is one of its markup: no words make a tag or change one, wherever
/// they come from.
pub fn words_are_no_tags()
    ensures { WordsAreNoTags }
{}

/// A report says what is printed, word for word: whoever reads what stands in the elements that are
/// called samp gets the text, and nothing else, whatever the file is called.
pub fn reports_say_the_same()
    ensures { ReportsSayTheSame }
{}

/// What is noted of an answer are the lines behind it that say what could have come, or had to,
/// word for word and in their order, and nothing else.
pub fn notes_are_lines()
    ensures { NotesAreLines }
{}

/// The lines of a report stand in elements in their order, each once: one alone, or several that
/// are indented, at most 100; and no line that could stand with those before it begins an element.
/// There is one way to do so.
pub fn lines_stand_together()
    ensures { LinesStandTogether }
{}
