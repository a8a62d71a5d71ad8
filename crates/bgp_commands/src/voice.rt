//! What sentences are said to.

ghost use Rattle.std.specs.Prelude.{◌≡◌, [], ◌∷◌, ◌++◌, List, map, option_to_list};
ghost use Rattle.bgp_commands.specs.Sentences.{of_remark, some_of};
ghost use Rattle.bgp_commands.specs.declared.sentence.Sentence.{Sentence as Said};

use crate::sentence::Sentence;
use bgp_recording_tool::Remark;
use std::io::Eprint;

/// What sentences are said to: standard error, or a list of them.
pub trait Voice {
    /// From the first state to the second these sentences were said.
    ghost says: { Self → Self → List Said → Type 0 };

    /// Says a sentence.
    fn say(&mut self, sentence: Sentence<'_>)
        ensures { says self.old self.new (sentence.entry ∷ []) };

    /// From a state to itself nothing was said.
    ghost nothing: { (a : Self) → says a a [] };

    /// What was said, and then more, was said in all.
    ghost joined: { (a b c : Self) (xs ys : List Said) →
        says a b xs → says b c ys → says a c (xs ++ ys) };
}

/// Standard error, on which each sentence is a line after the program's name. Nobody learns of a
/// line that can't be written.
#[derive(Clone, Copy, Drop)]
pub(crate) struct StandardError<'r, R>(pub(crate) &'r R);

impl<R: Eprint> Voice for StandardError<'_, R> {
    ghost use Rattle.std.specs.Prelude.{⊤};

    ghost says = { λ _ _ _. ⊤ };

    ghost nothing = { λ _. tt };

    ghost joined = { λ _ _ _ _ _ _ _. tt };

    fn say(&mut self, sentence: Sentence<'_>) {
        let _ = eprintln!(self.0; "bgp: {sentence}");
    }
}

/// Says a sentence, if there is one.
pub(crate) fn say_some<V: Voice>(voice: &mut V, sentence: Option<Sentence<'_>>)
    ensures { V.says voice.old voice.new (option_to_list sentence.entry) }
{
    if let Some(sentence) = sentence {
        voice.say(sentence);
    }
}

/// Says the sentences that there are, in their order.
pub(crate) fn say_each<V: Voice>(voice: &mut V, sentences: &[Option<Sentence<'_>>])
    ensures { V.says voice.old voice.new (some_of sentences.now) }
{
    for sentence in sentences {
        say_some(voice, *sentence);
    }
}

/// Says what there is to say about connections.
pub(crate) fn say_remarks<V: Voice>(voice: &mut V, remarks: &[Remark])
    ensures { V.says voice.old voice.new (some_of (map of_remark remarks.now)) }
{
    for remark in remarks {
        say_some(voice, Some(Sentence::Remark(*remark)));
    }
}
