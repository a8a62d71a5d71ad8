//! A stretch that is left: what the record tells with which the next one begins.

ghost use Rattle.std.specs.Prelude.{◌≡◌, ◌∷◌, [], IfOk};
ghost use Rattle.bgp_machine.specs.Run.{end_of};
ghost use Rattle.bgp_machine.specs.State.{fresh_state};
ghost use Rattle.bgp_check.specs.Answered.{answer_value};
ghost use Rattle.bgp_judge.specs.Ends.{end_value};
ghost use Rattle.bgp_judge.specs.Verdict.{Yes, verdict_value};
ghost use Rattle.bgp_check.specs.StretchTold.{left_answer, left_verdict};

use crate::answering::{Answer, Judged};
use bgp_judge::{End, Verdict};
use bgp_machine::Fsm;
use bgp_rib::RibIn;
use std::alloc::{AllocError, Allocator};

/// The end of a stretch that is left.
fn idle<A: Allocator + Copy>(alloc: A) -> End<A>
    ensures { end_value result ≡ end_of fresh_state }
{
    End {
        fsm: Fsm::Idle,
        rib: RibIn::new(alloc),
    }
}

/// A yes with the end of a stretch that is left.
fn left_alone<A: Allocator + Copy>(alloc: A) -> Result<Verdict<A>, AllocError>
    ensures { IfOk result (λ left. verdict_value left ≡ Yes (end_of fresh_state ∷ [])) }
{
    let mut ends = Vec::new(alloc);
    ends.push(idle(alloc))?;
    Ok(Verdict::Yes(ends))
}

/// The verdict on a stretch, of that on its records and the one that leaves it: a yes with one end
/// where these begin a run.
fn left_verdict<A: Allocator + Copy>(
    alloc: A,
    verdict: Verdict<A>,
) -> Result<Verdict<A>, AllocError>
    ensures { IfOk result (λ left. verdict_value left ≡ left_verdict (verdict_value verdict)) }
{
    match verdict {
        Verdict::No(count) => Ok(Verdict::No(count)),
        Verdict::Yes(_) | Verdict::Unfinished => left_alone(alloc),
    }
}

/// What is answered of a stretch that is left, of what is answered of its records and the one that
/// leaves it.
pub(crate) fn left_answer<A: Allocator + Copy>(
    alloc: A,
    answer: Answer<A>,
) -> Result<Answer<A>, AllocError>
    ensures { IfOk result (λ left. answer_value left ≡ left_answer (answer_value answer)) }
{
    match answer {
        Answer::NotJudged(why) => Ok(Answer::NotJudged(why)),
        Answer::Judged(judged) => Ok(Answer::Judged(Judged {
            as_number: judged.as_number,
            peer_as: judged.peer_as,
            under: judged.under,
            verdict: left_verdict(alloc, judged.verdict)?,
        })),
    }
}
