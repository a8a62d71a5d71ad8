//! What an UPDATE that was received in Established asks for (RFC 4271, 6.3; RFC 7606).

ghost use Rattle.std.specs.Prelude.{◌≡◌, ◌∷◌, [], IfOk, map};
ghost use Rattle.bgp_why_parts.specs.UpdateParts.{shown_part};
ghost use Rattle.bgp_text.specs.Lines.{Writes};
ghost use Rattle.bgp_why_parts.specs.Pieces.{separated, next_separator};
ghost use Rattle.bgp_why.specs.Applying.{AsksUpdate, applied_piece, applied_text};
ghost use Rattle.bgp_why.specs.Applying.{disabled_text, outcomes_text, or_else};
ghost use Rattle.bgp_why.specs.Applying.{last_update_line, may_disable};
ghost use Rattle.bgp_why.specs.Applying.{may_disable_these, refused_piece, update_asks};

use crate::asked::{has_some, put_received};
use crate::errors::put_update_errors;
use crate::items::has_update_error;
use crate::message::MessageName;
use crate::place::Place;
use crate::style::Style;
use bgp_open::{Families, Link};
use bgp_text::Lines;
use bgp_update::{Subcodes, read_update};
use bgp_why_parts::{Parts, UpdatePart, families_name, is_withdrawal, put_parts, update_parts};
use mrt::Sink;
use std::alloc::{AllocError, Allocator, Global};

/// The sets of families, in the order in which they are printed.
const NONE: Families = Families {
    v4: false,
    v6: false,
};

const V4: Families = Families {
    v4: true,
    v6: false,
};

const V6: Families = Families {
    v4: false,
    v6: true,
};

const BOTH: Families = Families { v4: true, v6: true };

/// How an UPDATE may be applied.
#[derive(Clone, Copy)]
pub struct Applying {
    /// Its routes are withdrawn in place of being announced (RFC 7606, 2).
    pub as_withdrawal: bool,
    /// The families that are disabled then.
    pub certain: Families,
    /// The other families that may be disabled then, or not.
    pub optional: Families,
}

/// What an UPDATE that is received in Established asks for.
#[derive(Drop)]
pub struct AskedUpdate<'a, A: Allocator = Global> {
    /// To be applied so, where the session need not be reset.
    pub applied: Option<Applying>,
    /// To be refused, by one of these subcodes of UPDATE Message Error.
    pub refused: Subcodes,
    /// What keeps it from being clean.
    pub parts: Vec<UpdatePart<'a>, A>,
}

impl<'a, A: Allocator + Copy> AskedUpdate<'a, A> {
    /// What the octets ask for as an UPDATE that came over this link. It takes memory for what the
    /// UPDATE changes, and for its parts.
    pub fn of(alloc: A, link: &Link, octets: &'a [u8]) -> Result<AskedUpdate<'a, A>, AllocError>
        ensures { IfOk result (AsksUpdate link.now octets.entry.now) }
    {
        let outcomes = read_update(alloc, link, octets)?;
        let parts = update_parts(alloc, link, link.received, octets)?;
        let applying = Applying {
            as_withdrawal: is_withdrawal(link, parts.as_slice()),
            certain: outcomes.certain,
            optional: outcomes.optional,
        };
        Ok(AskedUpdate {
            applied: outcomes.changes.is_some().then_some(applying),
            refused: outcomes.reset,
            parts,
        })
    }
}

/// Whether a family may be, or may not be, among those that are disabled.
fn may_disable(certain: bool, optional: bool, is_disabled: bool) -> bool
    ensures { result ≡ may_disable certain optional is_disabled }
{
    if is_disabled {
        certain || optional
    } else {
        !certain
    }
}

/// Whether just these families may be disabled.
fn may_disable_these(applying: &Applying, families: Families) -> bool
    ensures { result ≡ may_disable_these applying.now families }
{
    let Applying {
        certain,
        optional,
        ..
    } = *applying;
    may_disable(certain.v4, optional.v4, families.v4)
        && may_disable(certain.v6, optional.v6, families.v6)
}

/// The families that are disabled, if any.
fn put_disabled<W: Sink>(lines: &mut Lines<'_, W>, families: Families)
    ensures { Writes lines.old lines.new (disabled_text families) }
{
    if has_some(families) {
        lines.put(b" with ");
        lines.put(families_name(families).as_bytes());
        lines.put(b" disabled");
    }
}

/// How it is applied.
fn applied_text(as_withdrawal: bool) -> &'static [u8]
    ensures { result.now ≡ applied_text as_withdrawal }
{
    if as_withdrawal {
        b"to be treated as a withdrawal"
    } else {
        b"to be applied"
    }
}

/// That it is to be applied, with these families disabled, after a word; nothing where that isn't
/// allowed. Answers the next word.
fn put_applied<W: Sink>(
    lines: &mut Lines<'_, W>,
    before: &'static [u8],
    applied: Option<Applying>,
    families: Families,
) -> &'static [u8]
    ensures writes { Writes lines.old lines.new
        (separated or_else before.now (applied_piece applied families ∷ [])) }
    ensures next { result.now
        ≡ next_separator or_else before.now (applied_piece applied families) }
{
    let Some(applying) = applied else {
        return before;
    };
    if !may_disable_these(&applying, families) {
        return before;
    }
    lines.put(before);
    lines.put(applied_text(applying.as_withdrawal));
    put_disabled(lines, families);
    b", or "
}

/// That it is to be refused by one of these, if there is one, after a word.
fn put_refused<W: Sink>(lines: &mut Lines<'_, W>, before: &'static [u8], errors: &Subcodes)
    ensures { Writes lines.old lines.new
        (separated or_else before.now (refused_piece errors.now ∷ [])) }
{
    if has_update_error(errors) {
        lines.put(before);
        lines.put(b"to be refused with NOTIFICATION ");
        put_update_errors(lines, errors);
    }
}

/// All that is allowed of it.
fn put_outcomes<W: Sink>(lines: &mut Lines<'_, W>, applied: Option<Applying>, refused: &Subcodes)
    ensures { Writes lines.old lines.new (outcomes_text applied refused.now) }
{
    let first = put_applied(lines, b": ", applied, NONE);
    let second = put_applied(lines, first, applied, V4);
    let third = put_applied(lines, second, applied, V6);
    let fourth = put_applied(lines, third, applied, BOTH);
    put_refused(lines, fourth, refused);
}

/// Puts all that is allowed of an UPDATE, and why, after its name; or `: without fault`.
pub fn put_update_asks<W: Sink>(
    lines: &mut Lines<'_, W>,
    applied: Option<Applying>,
    refused: &Subcodes,
    parts: &[UpdatePart<'_>],
)
    ensures { Writes lines.old lines.new
        (update_asks applied refused.now (map shown_part parts.now)) }
{
    if parts.is_empty() {
        lines.put(b": without fault");
    } else {
        put_outcomes(lines, applied, refused);
        lines.put(b" [RFC 7606]");
        put_parts(lines, b"; faulty: ", Parts::Update(false, parts));
    }
}

/// Puts `last received: PLACE, TIME, NAME ASKED`: where the record stands that holds the UPDATE,
/// how it is called, and what it asks for in Established: `to be applied`, or `to be treated as a
/// withdrawal`, each `with IPv6 disabled` or not, or `to be refused with NOTIFICATION 3/9 (Optional
/// Attribute Error)`, all that is allowed; and then why, part by part.
pub fn put_last_update<W: Sink, A: Allocator>(
    lines: &mut Lines<'_, W>,
    style: &Style,
    place: &Place,
    name: &MessageName,
    asked: &AskedUpdate<'_, A>,
)
    ensures { Writes lines.old lines.new
        (last_update_line style.now place.now name.now asked.now) }
{
    lines.put(b"  ");
    put_received(lines, style.first, place, name);
    put_update_asks(lines, asked.applied, &asked.refused, asked.parts.as_slice());
    lines.put(b"\n");
}
