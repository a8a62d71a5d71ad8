//! Laws of the answers in a text, each on a function that does nothing.

ghost use Rattle.bgp_answer_laws.specs.Answers.{NotesAreOfAnswers};
ghost use Rattle.bgp_answer_laws.specs.Ends as recordings;
ghost use Rattle.bgp_answer_laws.specs.Reasons.{ReasonsAreLines, WhysSayWhatMayCome};
ghost use Rattle.bgp_answer_laws.specs.Stretches as captures;

use bgp_check_laws::each_deed_is_visible;

/// States that what a report notes of a text by the number of an answer are the lines behind the
/// answer with this number, and before the next one, that say what could have come, or had to.
pub fn notes_are_of_answers()
    ensures { NotesAreOfAnswers }
{}

/// States that of the lines of a reason just those say what could have come, or had to, that list
/// what may come in the record's place or after all records, and what could have been sent there in
/// other orders. None begins an answer.
pub fn each_reason_says_what_may_come()
    ensures lists { WhysSayWhatMayCome }
    ensures lines { ReasonsAreLines }
{}

/// States that each end that `check` tells is made of such lines, if what its records hold are
/// octets: no line feed stands in what was done, and no line of its reason begins an answer.
pub fn told_ends_have_lines()
    ensures recordings { recordings.ToldEndsHaveLines }
    ensures captures { captures.ToldStretchesHaveLines }
{
    each_deed_is_visible();
}

/// States that what `check` prints has an answer for each mark, in the order of the marks, and no
/// other: the line of the verdict on that end, and behind it, before the next answer, the lines of
/// its reason that say what could have come, or had to. An end that is left out has neither.
pub fn each_mark_has_its_answer()
    ensures recordings { recordings.EachMarkHasItsAnswer }
    ensures captures { captures.EachMarkHasItsAnswer }
{}
