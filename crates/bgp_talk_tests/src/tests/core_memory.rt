//! Memory that is refused to a speaker's core: a drive that is refused has no records, and an input
//! that is refused can be told again.

use super::*;
use bgp_machine::Fsm;
use bgp_prefix::Seconds;
use bgp_speaker::{Core, Input, Output, Run, Shown, drive};
use bgp_wire::vectors::ANNOUNCES_10;
use linked_list_allocator::LocalHeap;

/// The marker of a message, alone.
const MARKER: [u8; 16] = [255; 16];

/// Each kind of input, and when. The second KEEPALIVE comes in two pieces.
fn inputs_of(alloc: Global) -> Option<Vec<(Seconds, Input<'static>)>> {
    let (low, high) = (read_prefix("10.1.0.0/16")?, read_prefix("10.2.0.0/16")?);
    let inputs = [
        (100, Input::Announce(low)),
        (100, Input::Passive),
        (100, Input::Failed),
        (100, Input::Start),
        (100, Input::Connected),
        (101, Input::Bytes(&OPEN_B)),
        (101, Input::Bytes(&KEEPALIVE)),
        (101, Input::Bytes(&MARKER)),
        (102, Input::Bytes(&[0, 19, 4])),
        (102, Input::Bytes(&ANNOUNCES_10)),
        (103, Input::Announce(high)),
        (104, Input::Withdraw(low)),
        (134, Input::Tick),
        (135, Input::Stop),
    ];
    Vec::from_slice(alloc, &inputs).ok()
}

/// The state that each leads to, and how many records have been shown and octets sent by then: an
/// OPEN has 49, a KEEPALIVE 19, an UPDATE that announces 46, one that withdraws 26, and the Cease
/// 21 octets.
static STEPS: [(Fsm, usize, usize); 14] = [
    (Fsm::Idle, 0, 0),
    (Fsm::Active, 1, 0),
    (Fsm::Idle, 2, 0),
    (Fsm::Connect, 3, 0),
    (Fsm::OpenSent, 5, 49),
    (Fsm::OpenConfirm, 8, 68),
    (Fsm::Established, 11, 114),
    (Fsm::Established, 11, 114),
    (Fsm::Established, 12, 114),
    (Fsm::Established, 13, 114),
    (Fsm::Established, 14, 160),
    (Fsm::Established, 15, 186),
    (Fsm::Established, 16, 205),
    (Fsm::Idle, 18, 226),
];

/// A drive, and what it comes to with ample memory.
#[derive(Drop)]
struct Drive {
    config: Config,
    inputs: Vec<(Seconds, Input<'static>)>,
    run: Run,
}

/// The drive of these inputs.
fn drive_of(alloc: Global) -> Option<Drive> {
    let config = Config::new(SPEAKER_A)?;
    let inputs = inputs_of(alloc)?;
    let run = drive(alloc, &config, HOP_4, HOP_6, inputs.as_slice()).ok()?;
    Some(Drive {
        config,
        inputs,
        run,
    })
}

/// Whether these are the records.
fn are_shown<A: Allocator>(shown: &[Shown<A>], wanted: &[Shown]) -> bool {
    if shown.len() != wanted.len() {
        return false;
    }
    for (one, other) in shown.iter().zip(wanted) {
        if one.record() != other.record() {
            return false;
        }
    }
    true
}

/// Whether a drive shows and sends the same, and ends in Idle without routes.
fn is_run<A: Allocator>(run: &Run<A>, wanted: &Run) -> bool {
    are_shown(run.records.as_slice(), wanted.records.as_slice())
        && run.sent.as_slice() == wanted.sent.as_slice()
        && run.fsm == Fsm::Idle
        && run.rib.len() == 0
        && run.rib.disabled() == NONE
}

/// Whether a heap of this size is enough for a drive: `None` where it comes to anything else.
fn is_enough(alloc: Global, size: usize, wanted: &Drive) -> Option<bool> {
    let heap = LocalHeap::new(alloc, size).ok()?;
    match drive(
        &heap,
        &wanted.config,
        HOP_4,
        HOP_6,
        wanted.inputs.as_slice(),
    ) {
        Ok(run) => is_run(&run, &wanted.run).then_some(true),
        Err(_) => Some(false),
    }
}

/// Whether a drive is refused by some heaps, and then never again.
fn is_refused_by_some(alloc: Global) -> Option<bool> {
    let wanted = drive_of(alloc)?;
    let (mut refused, mut done) = (false, false);
    for step in 1..2048 {
        done = is_enough(alloc, 16 * step, &wanted)?;
        refused = refused || !done;
    }
    Some(refused && done)
}

#[test]
fn a_refused_drive_has_no_records(rt: HostRuntime) {
    assert!(rt; is_refused_by_some(rt.alloc()) == Some(true));
}

/// Where a core is in a drive: the places of what it has shown and sent.
#[derive(Clone, Copy)]
struct Step {
    fsm: Fsm,
    records: (usize, usize),
    octets: (usize, usize),
}

/// Whether what a core answers is what stands there in the drive.
fn is_answer<A: Allocator>(output: &Output<A>, run: &Run, step: &Step) -> bool {
    let records = run.records.get(step.records.0..step.records.1);
    let octets = run.sent.get(step.octets.0..step.octets.1);
    match records {
        Some(records) => {
            are_shown(output.records.as_slice(), records)
                && octets == Some(output.octets.as_slice())
        }
        None => false,
    }
}

/// The same input.
fn again<'a>(input: &Input<'a>) -> Input<'a> {
    match input {
        Input::Start => Input::Start,
        Input::Passive => Input::Passive,
        Input::Stop => Input::Stop,
        Input::Connected => Input::Connected,
        Input::Failed => Input::Failed,
        Input::Bytes(octets) => Input::Bytes(octets),
        Input::Tick => Input::Tick,
        Input::Announce(prefix) => Input::Announce(*prefix),
        Input::Withdraw(prefix) => Input::Withdraw(*prefix),
    }
}

/// What a core answers to an input with so many octets of its heap left; `None` where memory is
/// refused.
fn step_beside<'a>(
    heap: &'a LocalHeap,
    core: &mut Core<&'a LocalHeap>,
    left: usize,
    (second, input): &(Seconds, Input<'_>),
) -> Option<Output<&'a LocalHeap>> {
    let ballast: Result<Vec<u8, _>, _> = Vec::with_capacity(heap, heap.free().saturating_sub(left));
    let output = core.step(again(input), *second).ok();
    drop(ballast);
    output
}

/// Whether a core takes an input now.
fn takes_now<'a>(
    core: &mut Core<&'a LocalHeap>,
    (second, input): &(Seconds, Input<'_>),
    run: &Run,
    step: &Step,
) -> bool {
    match core.step(again(input), *second) {
        Ok(output) => is_answer(&output, run, step) && core.fsm() == step.fsm,
        Err(_) => false,
    }
}

/// Whether an input is refused with so many octets left, and then taken with more: `None` where
/// what is shown is wrong, or the state was another one after the refusal.
fn takes<'a>(
    heap: &'a LocalHeap,
    core: &mut Core<&'a LocalHeap>,
    left: usize,
    told: &(Seconds, Input<'_>),
    run: &Run,
    step: &Step,
) -> Option<bool> {
    let before = core.fsm();
    match step_beside(heap, core, left, told) {
        Some(output) => {
            (is_answer(&output, run, step) && core.fsm() == step.fsm).then_some(false)
        }
        None => (core.fsm() == before && takes_now(core, told, run, step)).then_some(true),
    }
}

/// Whether an input was refused with so many octets left: `None` where what a core shows is wrong.
fn takes_all<'a>(heap: &'a LocalHeap, left: usize, wanted: &Drive) -> Option<bool> {
    let mut core = Core::new(heap, &wanted.config, HOP_4, HOP_6);
    let mut refused = false;
    let (mut records, mut octets) = (0, 0);
    for (told, (fsm, shown, sent)) in wanted.inputs.iter().zip(&STEPS) {
        let step = Step {
            fsm: *fsm,
            records: (records, *shown),
            octets: (octets, *sent),
        };
        let is_refused = takes(heap, &mut core, left, told, &wanted.run, &step)?;
        refused = refused || is_refused;
        (records, octets) = (*shown, *sent);
    }
    Some(refused)
}

/// The same with a heap of its own.
fn takes_all_with(alloc: Global, left: usize, wanted: &Drive) -> Option<bool> {
    let heap = LocalHeap::new(alloc, 1 << 14).ok()?;
    takes_all(&heap, left, wanted)
}

/// Whether inputs are refused with few octets left, and not with more.
fn are_taken_again(alloc: Global) -> Option<bool> {
    let wanted = drive_of(alloc)?;
    let (mut refused, mut done) = (false, false);
    for step in 0..128 {
        done = !takes_all_with(alloc, 32 * step, &wanted)?;
        refused = refused || !done;
    }
    Some(refused && done)
}

#[test]
fn a_refused_input_can_be_told_again(rt: HostRuntime) {
    assert!(rt; are_taken_again(rt.alloc()) == Some(true));
}
