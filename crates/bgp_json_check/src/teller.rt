//! Objects one after another, as far as there is memory for them.

ghost use Rattle.std.specs.Prelude.{◌≡◌, ◌+◌, ◌∷◌, [], IfOk, List, false, map, true};
ghost use Rattle.json.specs.Json.{Json};
ghost use Rattle.bgp_judge.specs.Ends.{end_value};
ghost use Rattle.bgp_json_verdicts.specs.Status.{code_of};
ghost use Rattle.mrt_sessions.specs.Located.{located};
ghost use Rattle.bgp_json.specs.Others.{capture_json};
ghost use Rattle.bgp_json_verdicts.specs.Telling.{AreValues, lines_of};
ghost use Rattle.bgp_list.specs.Values.{how_value};
ghost use Rattle.bgp_list.specs.ConnectionJson.{refused_json};
ghost use Rattle.bgp_list.specs.Forms.{line_json};
ghost use Rattle.bgp_list.specs.Lines.{line_value};
ghost use Rattle.bgp_list.specs.SessionJson.{session_json};
ghost use Rattle.bgp_json_check.specs.Objects.{before_json, befores_json, detail_json, end_json};
ghost use Rattle.bgp_json_check.specs.Objects.{ended_json, numbered_json, route_json};
ghost use Rattle.bgp_json_check.specs.Objects.{routes_json, total_json, verdict_json, yes_json};
ghost use Rattle.bgp_json_check.specs.Telling.{Tells, TellsVerdict, told_status};

use crate::member::JudgedEnd;
use crate::objects::{CheckDetail, CheckTotal, CheckVerdict};
use crate::putting::{
    put_detail_object, put_ended_object, put_listed_object, put_route_object, put_session_object,
    put_total_object, put_verdict_object,
};
use bgp_import::Refusal;
use bgp_json_verdicts::{At, Status};
use bgp_judge::End;
use bgp_list::{How, Line, PeerAs, put_fault_json, put_refused_json};
use bgp_path::Path;
use bgp_rib::RibIn;
use bgp_text::Lines;
use bgp_update::Destination;
use bgp_why::Endpoint;
use mrt::{CaptureFault, Sink};
use mrt_sessions::{Addresses, NamedRecord};
use std::alloc::{AllocError, Allocator};

/// Puts the objects of lines one after another, until memory is refused for one: then nothing more
/// is put. It counts the verdicts: an object that belongs to one has its number.
#[derive(Clone, Copy)]
pub struct CheckTeller {
    judged: u64,
    has_failed: bool,
}

impl CheckTeller {
    /// Starts before the first verdict.
    pub fn new() -> CheckTeller
        ensures judged { result.judged ≡ 0 }
        ensures calm { result.has_failed ≡ false }
    {
        CheckTeller {
            judged: 0,
            has_failed: false,
        }
    }

    /// Returns the exit status of what has this one, or that of memory, where it was refused for an
    /// object.
    pub fn status(&self, status: Status) -> Status
        ensures { code_of result ≡ told_status self.now (code_of status) }
    {
        if self.has_failed {
            Status::Memory
        } else {
            status
        }
    }

    /// Returns how many verdicts there are so far.
    pub fn judged(&self) -> u64
        ensures { result ≡ self.now.judged }
    {
        self.judged
    }

    /// Tells that memory was refused for an object, so that nothing more is put.
    pub fn fail(&mut self)
        ensures { self.new ≡ record self.old { has_failed = true } }
    {
        self.has_failed = true;
    }

    /// Puts the object of one more verdict.
    pub fn put_verdict<A: Allocator + Copy, W: Sink>(
        &mut self,
        lines: &mut Lines<'_, W>,
        alloc: A,
        verdict: &CheckVerdict<'_>,
    )
        ensures { TellsVerdict self.old self.new lines.old lines.new
            (verdict_json (self.old.judged + 1) verdict.now ∷ []) }
    {
        if self.has_failed {
            return;
        }
        let Some(judged) = self.judged.checked_add(1) else {
            self.fail();
            return;
        };
        match put_verdict_object(lines, alloc, judged, verdict) {
            Ok(()) => self.judged = judged,
            Err(AllocError) => self.fail(),
        }
    }

    /// Puts the object of what is said beside the last verdict.
    pub fn put_detail<A: Allocator + Copy, W: Sink>(
        &mut self,
        lines: &mut Lines<'_, W>,
        alloc: A,
        detail: &CheckDetail<'_>,
    )
        ensures { Tells self.old self.new lines.old lines.new
            (detail_json self.old.judged detail.now ∷ []) }
    {
        if self.has_failed {
            return;
        }
        match put_detail_object(lines, alloc, self.judged, detail) {
            Ok(()) => {}
            Err(AllocError) => self.fail(),
        }
    }

    /// Puts the object of how a session ended: the record that shows it, by whom, and how.
    pub fn put_ended<A: Allocator + Copy, W: Sink>(
        &mut self,
        lines: &mut Lines<'_, W>,
        alloc: A,
        at: &At,
        by: &Endpoint,
        how: How<'_>,
    )
        ensures { Tells self.old self.new lines.old lines.new
            (ended_json self.old.judged at.now by.now (how_value how.entry) ∷ []) }
    {
        if self.has_failed {
            return;
        }
        match put_ended_object(lines, alloc, self.judged, at, by, how) {
            Ok(()) => {}
            Err(AllocError) => self.fail(),
        }
    }

    /// Puts objects that were made in memory, which belong to the last verdict.
    pub fn put_made<A: Allocator, W: Sink>(
        &mut self,
        lines: &mut Lines<'_, W>,
        made: Result<Vec<u8, A>, AllocError>,
    )
        ensures { (objects : List Json)
            → IfOk made (λ text. (text.items ≡ lines_of objects) × AreValues objects)
            → Tells self.old self.new lines.old lines.new objects }
    {
        if self.has_failed {
            return;
        }
        match made {
            Ok(text) => lines.put(text.as_slice()),
            Err(AllocError) => self.fail(),
        }
    }

    /// Puts the object of what is said of a whole file.
    pub fn put_total<A: Allocator + Copy, W: Sink>(
        &mut self,
        lines: &mut Lines<'_, W>,
        alloc: A,
        total: &CheckTotal,
    )
        ensures { Tells self.old self.new lines.old lines.new (total_json total.now ∷ []) }
    {
        if self.has_failed {
            return;
        }
        match put_total_object(lines, alloc, total) {
            Ok(()) => {}
            Err(AllocError) => self.fail(),
        }
    }

    /// Puts the object of a line of a list: a connection, or what is refused of a recording.
    pub fn put_listed<A: Allocator + Copy, W: Sink>(
        &mut self,
        lines: &mut Lines<'_, W>,
        alloc: A,
        listed: &Line<'_>,
    )
        ensures { Tells self.old self.new lines.old lines.new
            (line_json (line_value listed.now) ∷ []) }
    {
        if self.has_failed {
            return;
        }
        match put_listed_object(lines, alloc, listed) {
            Ok(()) => {}
            Err(AllocError) => self.fail(),
        }
    }

    /// Puts the object of a capture's session with these records.
    pub fn put_session<A: Allocator + Copy, W: Sink>(
        &mut self,
        lines: &mut Lines<'_, W>,
        alloc: A,
        addresses: Addresses,
        records: &[NamedRecord<'_>],
    )
        ensures { Tells self.old self.new lines.old lines.new
            (session_json addresses (map located records.now) ∷ []) }
    {
        if self.has_failed {
            return;
        }
        match put_session_object(lines, alloc, addresses, records) {
            Ok(()) => {}
            Err(AllocError) => self.fail(),
        }
    }

    /// Puts the object of a recording that can't be read on. It takes no memory.
    pub fn put_refused<W: Sink>(&mut self, lines: &mut Lines<'_, W>, refusal: Refusal)
        ensures { Tells self.old self.new lines.old lines.new (refused_json refusal ∷ []) }
    {
        if self.has_failed {
            return;
        }
        put_refused_json(lines, refusal);
    }

    /// Puts the object of a capture that can't be read on. It takes no memory.
    pub fn put_capture_fault<W: Sink>(&mut self, lines: &mut Lines<'_, W>, fault: CaptureFault)
        ensures { Tells self.old self.new lines.old lines.new (capture_json fault ∷ []) }
    {
        if self.has_failed {
            return;
        }
        put_fault_json(lines, fault);
    }

    /// Puts the object of a route.
    fn put_route<A: Allocator + Copy, B: Allocator, W: Sink>(
        &mut self,
        lines: &mut Lines<'_, W>,
        alloc: A,
        kind: &str,
        end: u64,
        destination: Destination,
        path: &Path<B>,
    )
        ensures { Tells self.old self.new lines.old lines.new
            (route_json kind.now self.old.judged end (destination, path.now) ∷ []) }
    {
        if self.has_failed {
            return;
        }
        match put_route_object(lines, alloc, kind, self.judged, end, destination, path) {
            Ok(()) => {}
            Err(AllocError) => self.fail(),
        }
    }

    /// Puts the objects of routes, in the order of their destinations.
    fn put_all_routes<A: Allocator + Copy, B: Allocator, W: Sink>(
        &mut self,
        lines: &mut Lines<'_, W>,
        alloc: A,
        kind: &str,
        end: u64,
        rib: &RibIn<B>,
    )
        ensures { Tells self.old self.new lines.old lines.new
            (map (route_json kind.now self.old.judged end) rib.now.entries) }
    {
        for (destination, path) in rib.routes() {
            self.put_route(lines, alloc, kind, end, destination, path);
        }
    }

    /// Puts the objects of routes, if they are asked for.
    fn put_routes<A: Allocator + Copy, B: Allocator, W: Sink>(
        &mut self,
        lines: &mut Lines<'_, W>,
        alloc: A,
        are_asked: bool,
        kind: &str,
        end: u64,
        rib: &RibIn<B>,
    )
        ensures { Tells self.old self.new lines.old lines.new
            (routes_json are_asked kind.now self.old.judged end rib.now.entries) }
    {
        if are_asked {
            self.put_all_routes(lines, alloc, kind, end, rib);
        }
    }

    /// Puts the object of a possible end with this number, and those of its routes, if they are
    /// asked for.
    fn put_end<A: Allocator + Copy, B: Allocator, W: Sink>(
        &mut self,
        lines: &mut Lines<'_, W>,
        alloc: A,
        routes: bool,
        number: u64,
        end: &End<B>,
    )
        ensures { Tells self.old self.new lines.old lines.new
            (end_json routes self.old.judged number (end_value end.now)) }
    {
        let count = end.rib.len() as u64;
        let detail = CheckDetail::End(number, end.fsm, end.rib.disabled(), count);
        self.put_detail(lines, alloc, &detail);
        self.put_routes(lines, alloc, routes, "route", number, &end.rib);
    }

    /// Puts the object of an end before with this number, and those of its routes.
    fn put_before<A: Allocator + Copy, B: Allocator, W: Sink>(
        &mut self,
        lines: &mut Lines<'_, W>,
        alloc: A,
        number: u64,
        end: &End<B>,
    )
        ensures { Tells self.old self.new lines.old lines.new
            (before_json true self.old.judged number (end_value end.now)) }
    {
        let count = end.rib.len() as u64;
        let detail = CheckDetail::EndBefore(number, end.rib.disabled(), count);
        self.put_detail(lines, alloc, &detail);
        self.put_routes(lines, alloc, true, "route_before", number, &end.rib);
    }

    /// Puts the objects of possible ends, numbered from 1, with their routes, if they are asked
    /// for.
    fn put_ends<A: Allocator + Copy, B: Allocator, W: Sink>(
        &mut self,
        lines: &mut Lines<'_, W>,
        alloc: A,
        routes: bool,
        ends: &[End<B>],
    )
        ensures { Tells self.old self.new lines.old lines.new
            (numbered_json (end_json routes self.old.judged) 1 (map end_value ends.now)) }
    {
        for index in 0..ends.len() {
            self.put_end(lines, alloc, routes, index as u64 + 1, &ends[index]);
        }
    }

    /// Puts the objects of ends before, numbered from 1, with their routes.
    fn put_all_before<A: Allocator + Copy, B: Allocator, W: Sink>(
        &mut self,
        lines: &mut Lines<'_, W>,
        alloc: A,
        ends: &[End<B>],
    )
        ensures { Tells self.old self.new lines.old lines.new
            (numbered_json (before_json true self.old.judged) 1 (map end_value ends.now)) }
    {
        for index in 0..ends.len() {
            self.put_before(lines, alloc, index as u64 + 1, &ends[index]);
        }
    }

    /// Puts the objects of ends before, if routes are asked for.
    fn put_befores<A: Allocator + Copy, B: Allocator, W: Sink>(
        &mut self,
        lines: &mut Lines<'_, W>,
        alloc: A,
        routes: bool,
        ends: &[End<B>],
    )
        ensures { Tells self.old self.new lines.old lines.new
            (befores_json routes self.old.judged (map end_value ends.now)) }
    {
        if routes {
            self.put_all_before(lines, alloc, ends);
        }
    }

    /// Puts the objects of one more yes on an end: the verdict, each possible end, and if routes
    /// are asked for, those of each, and the ends before with theirs. The number is that of the
    /// highest state that its records show, and the counts are those of the routes before.
    pub fn put_yes<A: Allocator + Copy, B: Allocator, W: Sink>(
        &mut self,
        lines: &mut Lines<'_, W>,
        alloc: A,
        routes: bool,
        end: JudgedEnd,
        peer: PeerAs,
        highest: u16,
        counts: &[usize],
        ends: &[End<B>],
        before: &[End<B>],
    )
        ensures { TellsVerdict self.old self.new lines.old lines.new
            (yes_json routes (self.old.judged + 1) end peer highest counts.now
            (map end_value ends.now) (map end_value before.now)) }
    {
        let verdict = CheckVerdict::Yes(end, peer, highest, counts, routes);
        self.put_verdict(lines, alloc, &verdict);
        self.put_ends(lines, alloc, routes, ends);
        self.put_befores(lines, alloc, routes, before);
    }
}
