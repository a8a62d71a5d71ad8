//! Whether a message that was sent is a whole one (RFC 4271, 4.1 and 6.1).

ghost use Rattle.std.specs.Prelude.{◌≡◌};
ghost use Rattle.mrt.specs.Reader.{shown_of};
ghost use Rattle.bgp_machine.specs.Want.{limit_on};
ghost use Rattle.bgp_text.specs.Lines.{Writes};
ghost use Rattle.bgp_why.specs.NotWhole.{IsWhyNot, IsWhyNotSent, not_whole_line, unfit_line};
ghost use Rattle.bgp_why.specs.NotWhole.{unfit_text};

use bgp_open::Link;
use bgp_text::Lines;
use bgp_wire::{HeaderFaults, HeaderVerdict, Limit, check_header, header_at};
use mrt::{Record, Sink};

/// Why a message that was sent is no whole one.
#[derive(Clone, Copy, Debug, PartialEq, Eq)]
pub enum NotWhole {
    /// Its header has these faults.
    Faulty(HeaderFaults),
    /// It has fewer octets than a header.
    BelowHeader,
    /// It has another count of octets than its Length says.
    OtherCount,
}

/// How long a message may be that is sent on a link, or before there is one.
pub(crate) fn sent_limit(link: Option<Link>) -> Limit
    ensures { result ≡ limit_on link }
{
    match link {
        None => Limit::Plain,
        Some(link) => Limit::with_extended(link.extended),
    }
}

/// Why octets are no whole message.
fn why_not(limit: Limit, octets: &[u8]) -> Option<NotWhole>
    ensures { IsWhyNot limit octets.now result }
{
    let Some(header) = header_at(octets) else {
        return Some(NotWhole::BelowHeader);
    };
    match check_header(header, limit) {
        HeaderVerdict::Faulty(errors) => Some(NotWhole::Faulty(errors)),
        HeaderVerdict::Whole(count, _) => {
            if octets.len() == usize::from(count) {
                None
            } else {
                Some(NotWhole::OtherCount)
            }
        }
    }
}

impl NotWhole {
    /// Why a record is no whole message that can be sent on the link: `None` where it is one, and
    /// of what isn't sent.
    pub fn of(link: Option<Link>, shown: &Record<'_>) -> Option<NotWhole>
        ensures { IsWhyNotSent link (shown_of shown.now) result }
    {
        match *shown {
            Record::Out(_, octets) => why_not(sent_limit(link), octets),
            Record::In(_, _) | Record::Change(_, _, _) => None,
        }
    }
}

/// Returns why the octets of a message don't fit, or an empty text if its header has faults, which
/// are in the message's name.
pub fn unfit_text(why: NotWhole) -> &'static str
    ensures { result.now ≡ unfit_text why }
{
    match why {
        NotWhole::Faulty(_) => "",
        NotWhole::BelowHeader => "fewer octets than a header has",
        NotWhole::OtherCount => "another count of octets than its Length says",
    }
}

/// That a message isn't whole, and why.
fn put_unfit<W: Sink>(lines: &mut Lines<'_, W>, why: NotWhole)
    ensures { Writes lines.old lines.new (unfit_line why) }
{
    lines.put(b"  not a whole message: ");
    lines.put(unfit_text(why).as_bytes());
    lines.put(b"\n");
}

/// Puts `not a whole message: ` and why, if its octets don't fit. The message's name has the faults
/// of a header.
pub fn put_not_whole<W: Sink>(lines: &mut Lines<'_, W>, why: Option<NotWhole>)
    ensures { Writes lines.old lines.new (not_whole_line why) }
{
    match why {
        None => lines.put(b""),
        Some(NotWhole::Faulty(_)) => lines.put(b""),
        Some(NotWhole::BelowHeader) => put_unfit(lines, NotWhole::BelowHeader),
        Some(NotWhole::OtherCount) => put_unfit(lines, NotWhole::OtherCount),
    }
}
