//! The words of `pair`.

ghost use Rattle.std.specs.Prelude.{◌≡◌, ℕ, List, IfOk, IsErr, false, codes};
ghost use Rattle.clap.specs.Words.{app_of, found_of, rows_of};
ghost use Rattle.clap.specs.declared.builder.command.Command.TheViews.{out-Command as fields_of};
ghost use Rattle.bgp_words.specs.Words.{pair_words};
ghost use Rattle.bgp_words.specs.Pair.{IsPair};
ghost use Rattle.bgp_words.specs.Spelled.{NamesBy};

use crate::misfit::Misfit;
use crate::options::{Word, new_command, with_word};
use crate::values::value_of;
use crate::words::Command;
use clap::ArgMatches;
use std::alloc::{AllocError, Global};

/// What help says after the words of `pair`: what it does, what it prints, and the statuses.
const PAIRED: &str = "\
pair lets two ends speak with one another over TCP on 127.0.0.1, both in this program, and judges
what each did. It has no options: the left end is AS 65001 at 192.0.2.1 and announces 10.1.0.0/16,
the right end is AS 65002 at 192.0.2.2 and announces 10.2.0.0/16. FILE becomes the MRT file of the
left end, FILE.right that of the right end; both are read again and judged, and each verdict is
printed as judge prints it:
  left yes
  end Established disabled -
  route 10.2.0.0/16 via 192.0.2.2 path 65002 origin 0
  right yes
  end Established disabled -
  route 10.1.0.0/16 via 192.0.2.1 path 65001 origin 0
or, if the two don't come to a session:
  pair not established

Exit status: the greater one of both verdicts'.
  0   yes; or help was asked for
  1   no, or the two don't come to a session
  2   unfinished
  3   an MRT file is refused
  4   memory was refused
  5   a file or the connection can't be opened, read or written, or output can't be written
  64  the command line is none that the program knows

The manual is docs/bgp.1.md, at the top of the repository.";

/// The file of `pair`.
const CAPTURE: Word<'static> = Word::File(
    "FILE",
    "The left end's MRT file to write; - is a file of that name",
);

/// What the words of `pair` may be.
pub(crate) fn pair_words<'a>(alloc: Global) -> Result<clap::Command<'a>, AllocError>
    ensures words { IfOk result (λ pair. app_of pair ≡ pair_words) }
    ensures local { IfOk result (λ pair. (fields_of pair).has_globals ≡ false) }
{
    let pair = new_command(
        alloc,
        "pair",
        "Lets two ends of a session speak with one another, and judges both",
        PAIRED,
    );
    with_word(alloc, pair, CAPTURE)
}

/// The command that the values of `pair` are.
pub(crate) fn pair_of<'a>(pair: &ArgMatches<'a>) -> Result<Command<'a>, Misfit<'a>>
    ensures ok { IfOk result (NamesBy (codes "pair") (rows_of (found_of pair.now))) }
    ensures err { IsErr result → (file : List ℕ) →
        IsPair file (rows_of (found_of pair.now)) → ⊥ }
{
    let file = value_of(pair, "FILE")?;
    Ok(Command::Pair { file })
}
