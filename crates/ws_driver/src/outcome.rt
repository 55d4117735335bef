//! An answer, and the text that goes with it.

ghost use Rattle.std.specs.Prelude.{◌≡◌, IfOk};
ghost use Rattle.list_io.specs.ReportText.{report_text};
ghost use Rattle.ws_driver.specs.Texts.{refusal_text};
ghost use Rattle.ws_driver.specs.Answers.{refusal_answer, meaning, end_answer, answer_to, text_of};

use crate::answer::{Answer, Status};
use crate::request::Emit;
use crate::texts::{module_lines, schedule_lines};
use itoa::Buffer;
use list_io::report;
use slow_eval::evaluate;
use std::alloc::{AllocError, Global};
use ws_base::Refusal;
use ws_sema::Checked;
use ws_space::Ended;

fn refusal_line(alloc: Global, refusal: Refusal) -> Result<Vec<u8>, AllocError>
    ensures { IfOk result (λ text. text.items ≡ refusal_text refusal) }
{
    let mut buffer = Buffer::new();
    let mut text = Vec::from_slice(alloc, b"refused ")?;
    text.extend_from_slice(refusal.kind.word().as_bytes())?;
    text.extend_from_slice(b" line ")?;
    text.extend_from_slice(buffer.format(refusal.line).as_bytes())?;
    text.extend_from_slice(b"\n")?;
    Ok(text)
}

/// A refusal as an answer, and its line.
pub fn refused(alloc: Global, refusal: Refusal) -> Result<(Answer, Vec<u8>), AllocError>
    ensures { IfOk result (λ r. (r.0 ≡ refusal_answer refusal) × (r.1.items ≡ refusal_text refusal)) }
{
    let text = refusal_line(alloc, refusal)?;
    let answer = Answer {
        status: Status::Refused(refusal),
        regions: 0,
    };
    Ok((answer, text))
}

/// The end of a run as an answer.
fn end_answer(ended: &Ended) -> Answer
    ensures { result ≡ end_answer ended.now }
{
    match ended {
        Ended::Done(state) => Answer {
            status: Status::Done,
            regions: state.regions,
        },
        Ended::Faulted(fault) => Answer {
            status: Status::Faulted(*fault),
            regions: 0,
        },
    }
}

/// How the run of an accepted source over its data ends, and the report of that.
fn evaluated(alloc: Global, source: &Checked, input: &[u8]) -> Result<(Answer, Vec<u8>), AllocError>
    ensures { IfOk result (λ r. (r.0 ≡ end_answer (meaning source.now input.now)) × (r.1.items ≡ report_text (meaning source.now input.now))) }
{
    let ended = evaluate(alloc, source, input)?;
    let text = report(alloc, &ended)?;
    Ok((end_answer(&ended), text))
}

/// The answer of a translation.
const TRANSLATED: Answer = Answer {
    status: Status::Done,
    regions: 0,
};

/// The answer to an accepted source and its data, and the text that is asked for.
#[tactic(auto, unfolding(crate::specs::Answers::text_of))]
pub fn answer_to(
    alloc: Global,
    emit: Emit,
    source: &Checked,
    input: &[u8],
) -> Result<(Answer, Vec<u8>), AllocError>
    ensures { IfOk result (λ r. (r.0 ≡ answer_to emit source.now input.now) × (r.1.items ≡ text_of emit source.now input.now)) }
{
    match emit {
        Emit::Run => evaluated(alloc, source, input),
        Emit::Hlfir => Ok((TRANSLATED, module_lines(alloc, source)?)),
        Emit::Schedule => Ok((TRANSLATED, schedule_lines(alloc, source)?)),
    }
}
