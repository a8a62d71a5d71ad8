//! What is said of each answer, in its order.

ghost use Rattle.std.specs.Prelude.{◌≡◌, ◌++◌, ◌∷◌, [], map};
ghost use Rattle.bgp_commands.specs.Sentences as specs;
ghost use Rattle.bgp_commands.specs.Sentences.{capture_sentences, checked_capture_sentences};
ghost use Rattle.bgp_commands.specs.Sentences.{checked_recording_sentences, ended_sentences};
ghost use Rattle.bgp_commands.specs.Sentences.{fault_sentence, import_sentences};
ghost use Rattle.bgp_commands.specs.Sentences.{listed_capture_sentences, listed_sentences};
ghost use Rattle.bgp_commands.specs.Sentences.{listed_recording_sentences, made_sentence};
ghost use Rattle.bgp_commands.specs.Sentences.{made_sentences, nothing_sentences, one_help};
ghost use Rattle.bgp_commands.specs.Sentences.{read_sentences, record_sentences, recording_sentences};
ghost use Rattle.bgp_commands.specs.Sentences.{refused_sentences, some_of, wrapped_sentence};
ghost use Rattle.bgp_commands.specs.declared.sentence.Sentence.TheVariants.{OneName};

use crate::answer::Destination;
use crate::ends::{Ends, Output};
use crate::sentence::Sentence;
use crate::sentences::{
    cause_sentence, confederation_sentence, cut_short_sentence, fault_sentence, help_sentence,
    made_sentence, note_or, note_sentence, nothing_listed, one_help, passed_over_sentences,
    unmade_sentence, unwritten_sentence, without_sentence, wrapped_sentence,
};
use crate::voice::{Voice, say_each, say_remarks, say_some};
use bgp_import::{self as import, Imported, NotLookedInto, Notes, Refusal, Stopped, Wrapped};
use bgp_list::{ListedCapture, ListedRecording, NothingListed};
use bgp_recording_tool::FileOutcome;
use bgp_report::{CheckedCapture, CheckedRecording};
use bgp_tool::Outcome;
use mrt::CaptureFault;
use std::alloc::Allocator;

/// Says how a command over octets or an MRT file ended.
pub(crate) fn ended<V: Voice>(voice: &mut V, outcome: &Outcome<'_>)
    ensures { V.says voice.old voice.new (ended_sentences outcome.now) }
{
    let (received, sent) = passed_over_sentences(outcome.skipped);
    say_each(voice, &[received, sent, note_sentence(outcome.note)]);
}

/// Says how `decode --mrt` or `judge` ended.
pub(crate) fn read<A: Allocator, V: Voice>(voice: &mut V, outcome: &FileOutcome<'_, A>)
    ensures { V.says voice.old voice.new (read_sentences outcome.now) }
{
    of_records(voice, outcome);
    say_remarks(voice, outcome.remarks.as_slice());
    say_some(voice, note_sentence(outcome.note));
}

/// Says what there is to say of the file's packets and records.
fn of_records<A: Allocator, V: Voice>(voice: &mut V, outcome: &FileOutcome<'_, A>)
    ensures { V.says voice.old voice.new (record_sentences outcome.now) }
{
    let cut_short = cut_short_sentence(outcome.cut_short);
    let (received, sent) = passed_over_sentences(outcome.skipped);
    let confederation = confederation_sentence(outcome.confederation);
    let without = without_sentence(outcome.left_out.without);
    say_each(voice, &[cut_short, received, sent, confederation, without]);
}

/// Says that `import` names one file twice.
pub(crate) fn one_name<V: Voice>(voice: &mut V, file: &str)
    ensures { V.says voice.old voice.new (OneName file.entry ∷ []) }
{
    voice.say(Sentence::OneName { file });
}

/// Says how an import ended.
pub(crate) fn imported<'a, V: Voice>(
    voice: &mut V,
    imported: &Imported,
    to: Destination<'a>,
    ends: &Ends<'a>,
)
    ensures { V.says voice.old voice.new (import_sentences imported.now to.entry ends.now) }
{
    let cut_short = cut_short_sentence(imported.cut_short);
    match imported.ended {
        Ok(notes) => made(voice, cut_short, &notes),
        Err(Stopped::Refused(refusal)) => refused(voice, cut_short, refusal, ends),
        Err(Stopped::Unwritten) => {
            say_each(voice, &[unmade_sentence(to, ends.output), cut_short]);
        }
    }
}

/// Says how an MRT file was made.
fn made<V: Voice>(voice: &mut V, cut_short: Option<Sentence<'_>>, notes: &Notes)
    ensures { V.says voice.old voice.new (made_sentences cut_short.entry notes.now) }
{
    say_some(voice, cut_short);
    each_made(voice, &notes.in_order());
}

/// Says each of these notes.
fn each_made<V: Voice>(voice: &mut V, notes: &[Option<import::Note>])
    ensures { V.says voice.old voice.new (some_of (map made_sentence notes.now)) }
{
    for note in notes {
        say_some(voice, made_sentence(*note));
    }
}

/// Says why no MRT file is made.
fn refused<'a, V: Voice>(
    voice: &mut V,
    cut_short: Option<Sentence<'a>>,
    refusal: Refusal,
    ends: &Ends<'a>,
)
    ensures { V.says voice.old voice.new (refused_sentences cut_short.entry refusal ends.now) }
{
    say_each(
        voice,
        &[
            cut_short,
            Some(Sentence::Refused(refusal)),
            note_or(ends, help_sentence(refusal)),
            cause_sentence(ends, Some(refusal)),
        ],
    );
}

/// Says what helps against each refusal.
fn helps<V: Voice>(voice: &mut V, refusals: &[Option<Refusal>])
    ensures { V.says voice.old voice.new (some_of (map one_help refusals.now)) }
{
    for refusal in refusals {
        say_some(voice, one_help(*refusal));
    }
}

/// Says how `list` of a pcap file ended.
pub(crate) fn listed_recording<V: Voice>(voice: &mut V, listed: &ListedRecording, ends: &Ends<'_>)
    ensures { V.says voice.old voice.new (listed_recording_sentences listed.now ends.now) }
{
    match ends.output {
        Output::Whole => of_recording(voice, listed, ends),
        output => say_some(voice, unwritten_sentence(output)),
    }
}

/// Says how `list` of a pcap file ended whose lines are all written.
fn of_recording<V: Voice>(voice: &mut V, listed: &ListedRecording, ends: &Ends<'_>)
    ensures { V.says voice.old voice.new (listed_sentences listed.now ends.now) }
{
    say_some(voice, cut_short_sentence(listed.cut_short));
    helps(voice, listed.refusals.as_slice());
    nothing(voice, nothing_listed(listed), &listed.wrapped);
    say_some(voice, cause_sentence(ends, listed.refusal));
}

/// Says that nothing is listed, and then what isn't looked into, if nothing is listed.
fn nothing<V: Voice>(voice: &mut V, nothing: Option<NothingListed>, wrapped: &Wrapped)
    ensures { V.says voice.old voice.new (nothing_sentences nothing wrapped.now) }
{
    if let Some(nothing) = nothing {
        voice.say(Sentence::NothingListed(nothing));
        each_wrapped(voice, &wrapped.in_order());
    }
}

/// Says each kind of packet that isn't looked into.
fn each_wrapped<V: Voice>(voice: &mut V, kinds: &[Option<NotLookedInto>])
    ensures { V.says voice.old voice.new (some_of (map wrapped_sentence kinds.now)) }
{
    for wrapped in kinds {
        say_some(voice, wrapped_sentence(*wrapped));
    }
}

/// Says how `list` of an MRT file ended.
pub(crate) fn listed_capture<V: Voice>(voice: &mut V, listed: &ListedCapture, ends: &Ends<'_>)
    ensures { V.says voice.old voice.new (listed_capture_sentences listed.now ends.now) }
{
    match ends.output {
        Output::Whole => say_some(voice, note_or(ends, fault_sentence(ends, listed.fault))),
        output => say_some(voice, unwritten_sentence(output)),
    }
}

/// Says how `check` of a pcap file ended.
pub(crate) fn checked_recording<V: Voice>(
    voice: &mut V,
    checked: &CheckedRecording,
    ends: &Ends<'_>,
)
    ensures { V.says voice.old voice.new (checked_recording_sentences checked.now ends.now) }
{
    match ends.output {
        Output::Whole => ends_of_recording(voice, checked, ends),
        output => say_some(voice, unwritten_sentence(output)),
    }
}

/// Says how `check` of a pcap file ended whose lines are all written.
fn ends_of_recording<V: Voice>(voice: &mut V, checked: &CheckedRecording, ends: &Ends<'_>)
    ensures { V.says voice.old voice.new (recording_sentences checked.now ends.now) }
{
    helps(voice, checked.refusals.as_slice());
    let nothing = checked
        .nothing
        .map(|nothing| Sentence::NoEndOfRecording(nothing));
    say_each(voice, &[cause_sentence(ends, checked.refusal), nothing]);
}

/// Says how `check` of an MRT file ended.
pub(crate) fn checked_capture<V: Voice>(voice: &mut V, checked: &CheckedCapture, ends: &Ends<'_>)
    ensures { V.says voice.old voice.new (checked_capture_sentences checked.now ends.now) }
{
    match ends.output {
        Output::Whole => noted_capture(voice, checked, ends),
        output => say_some(voice, unwritten_sentence(output)),
    }
}

/// Says what the file is, if it has no session, or else how `check` of an MRT file ended, whose lines
/// are all written.
fn noted_capture<V: Voice>(voice: &mut V, checked: &CheckedCapture, ends: &Ends<'_>)
    ensures { V.says voice.old voice.new (specs.noted_capture checked.now ends.now ends.now.note) }
{
    match ends.note {
        Some(note) => voice.say(Sentence::Note(note)),
        None => ends_of_capture(voice, checked, ends),
    }
}

/// Says how `check` of an MRT file ended.
fn ends_of_capture<V: Voice>(voice: &mut V, checked: &CheckedCapture, ends: &Ends<'_>)
    ensures { V.says voice.old voice.new (capture_sentences checked.now ends.now) }
{
    each_fault(voice, checked.refusals.as_slice(), ends);
    let nothing = checked
        .nothing
        .map(|nothing| Sentence::NoEndOfCapture(nothing));
    say_some(voice, nothing);
}

/// Says each of the faults of an MRT file.
fn each_fault<V: Voice>(voice: &mut V, faults: &[Option<CaptureFault>], ends: &Ends<'_>)
    ensures { V.says voice.old voice.new (some_of (map (fault_sentence ends.now) faults.now)) }
{
    for fault in faults {
        say_some(voice, fault_sentence(ends, *fault));
    }
}
