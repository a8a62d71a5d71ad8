//! The lines of the messages of a session, in the form in which `bgp decode` prints.

ghost use Rattle.std.specs.Prelude.{◌≡◌, ◌≤◌, ℕ, List, Option, length};
ghost use Rattle.bgp_wire.specs.Header.{header_of, type_of};
ghost use Rattle.bgp_wire.specs.Verdict.{type_code};
ghost use Rattle.bgp_open.specs.declared.route_form.RouteForm.{RouteForm};
ghost use Rattle.mrt.specs.Reader.{shown_of};
ghost use Rattle.mrt.specs.Written.{IsAllowed};
ghost use Rattle.bgp_text.specs.Message.{Message, Says};
ghost use Rattle.bgp_lines.specs.Form.{Before, before_behind, before_with, nothing_before};
ghost use Rattle.bgp_lines.specs.Telling.{placed_as};
ghost use Rattle.bgp_json.specs.Output.{IsFrameOutput, IsRecordOutput, Knows, PutsOutput};
ghost use Rattle.bgp_json.specs.Output.{fault_output, form_of, refusal_output, rest_output};

use crate::faults::put_json_fault;
use crate::others::{put_json_capture_refusal, put_json_rest};
use crate::output_form::OutputForm;
use crate::place::Place;
use crate::teller::JsonTeller;
use bgp_lines::Teller;
use bgp_prefix::Session;
use bgp_text::{Lines, put_refused};
use bgp_values::Direction;
use bgp_wire::{HEADER_LEN, HeaderFaults, MessageType};
use mrt::{CaptureFault, Record, Sink};
use std::alloc::{AllocError, Allocator};

/// Puts the lines of the messages of a session one after another, as text or as JSON. It knows what
/// the OPENs before settle, as far as the lines depend on it. It is small, and takes memory for the
/// lines in JSON alone.
///
/// ```text
/// let mut teller = OutputTeller::new(OutputForm::Json { as2: false });
/// teller.put_frame(&mut lines, alloc, Direction::Received, offset, kind, frame)?;
/// ```
#[derive(Clone, Copy, Debug, PartialEq, Eq)]
pub enum OutputTeller {
    /// As text.
    Text(Teller),
    /// As JSON.
    Json(JsonTeller),
}

impl OutputTeller {
    /// Starts before the first message.
    pub fn new(form: OutputForm) -> OutputTeller
        ensures form { form_of result ≡ form }
        ensures knows { Knows result nothing_before }
    {
        match form {
            OutputForm::Text(form) => OutputTeller::Text(Teller::new(form)),
            OutputForm::Json { as2 } => OutputTeller::Json(JsonTeller::new(as2)),
        }
    }

    /// Puts the line of the next message, a frame that went this way, stands at this offset, and
    /// whose header says this type. If memory is refused, it puts nothing.
    pub fn put_frame<A: Allocator + Copy, W: Sink>(
        &mut self,
        lines: &mut Lines<'_, W>,
        alloc: A,
        direction: Direction,
        offset: u64,
        kind: MessageType,
        frame: &[u8],
    ) -> Result<(), AllocError>
        requires kind { type_code kind ≡ type_of (header_of frame.now) }
        requires header { 19 ≤ length frame.now }
        requires says { (form : RouteForm) → (message : Message) × Says form frame.now message }
        ensures form { form_of self.new ≡ form_of self.old }
        ensures line { (before : Before) → Knows self.old before
            → (line : List ℕ)
            × IsFrameOutput (form_of self.old) before direction offset frame.now line
            × PutsOutput (form_of self.old) result lines.old lines.new line }
        ensures knows { (before : Before) → Knows self.old before
            → Knows self.new (before_with direction frame.now before) }
    {
        match self {
            OutputTeller::Text(teller) => {
                teller.put_frame(lines, direction, kind, frame);
                Ok(())
            }
            OutputTeller::Json(teller) => {
                teller.put_frame(lines, alloc, direction, offset, kind, frame)
            }
        }
    }

    /// Puts the line of what a stream has behind its last frame, at this offset. If memory is
    /// refused, it puts nothing.
    pub fn put_rest<A: Allocator + Copy, W: Sink>(
        &self,
        lines: &mut Lines<'_, W>,
        alloc: A,
        offset: u64,
        octets: &[u8],
    ) -> Result<(), AllocError>
        ensures { PutsOutput (form_of self.now) result lines.old lines.new
            (rest_output (form_of self.now) offset octets.now) }
    {
        match self {
            OutputTeller::Text(teller) => {
                teller.put_rest(lines, octets);
                Ok(())
            }
            OutputTeller::Json(_) => put_json_rest(lines, alloc, offset, octets),
        }
    }

    /// Puts the line of a header with faults, which stands at this offset of a stream. If memory is
    /// refused, it puts nothing.
    pub fn put_fault<A: Allocator + Copy, W: Sink>(
        &self,
        lines: &mut Lines<'_, W>,
        alloc: A,
        offset: u64,
        faults: HeaderFaults,
        header: &[u8; HEADER_LEN],
    ) -> Result<(), AllocError>
        ensures { PutsOutput (form_of self.now) result lines.old lines.new
            (fault_output (form_of self.now) offset faults header.now) }
    {
        match self {
            OutputTeller::Text(teller) => {
                teller.put_fault(lines, offset, faults, header);
                Ok(())
            }
            OutputTeller::Json(_) => {
                let place = Place::InStream(offset);
                put_json_fault(lines, alloc, place, faults, header, header)
            }
        }
    }

    /// Puts the line of the next record, which a capture of the session may have and which has this
    /// number. In words and in JSON it names the packet, if one is given. If memory is refused, it
    /// puts nothing.
    pub fn put_record<A: Allocator + Copy, W: Sink>(
        &mut self,
        lines: &mut Lines<'_, W>,
        alloc: A,
        session: &Session,
        number: u64,
        packet: Option<u64>,
        shown: &Record<'_>,
    ) -> Result<(), AllocError>
        requires { (last : Option ℕ) × IsAllowed session.now last (shown_of shown.now) }
        ensures form { form_of self.new ≡ form_of self.old }
        ensures line { (before : Before) → Knows self.old before
            → (line : List ℕ)
            × IsRecordOutput (form_of self.old) session.now before number
            (placed_as packet (shown_of shown.now)) line
            × PutsOutput (form_of self.old) result lines.old lines.new line }
        ensures knows { (before : Before) → Knows self.old before
            → Knows self.new (before_behind (shown_of shown.now) before) }
    {
        match self {
            OutputTeller::Text(teller) => {
                teller.put_record(lines, session, packet, shown);
                Ok(())
            }
            OutputTeller::Json(teller) => {
                teller.put_record(lines, alloc, session, number, packet, shown)
            }
        }
    }
}

/// Puts the line of a capture that is refused, in this form. If memory is refused, it puts nothing.
pub fn put_capture_refusal<A: Allocator, W: Sink>(
    lines: &mut Lines<'_, W>,
    alloc: A,
    form: OutputForm,
    fault: CaptureFault,
) -> Result<(), AllocError>
    ensures { PutsOutput form result lines.old lines.new (refusal_output form fault) }
{
    match form {
        OutputForm::Text(_) => {
            put_refused(lines, fault);
            Ok(())
        }
        OutputForm::Json { .. } => put_json_capture_refusal(lines, alloc, fault),
    }
}
