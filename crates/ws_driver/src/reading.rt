//! The answer to a request: the files that it names are read, the data only where the source is accepted.

ghost use Rattle.std.specs.Prelude.{◌≡◌, ◌≤◌, vec_len, IfOk, IfErr, IfSome};
ghost use Rattle.std.specs.Option.{option_copied};
ghost use Rattle.ws_driver.specs.Request.{asked, data_of, input_told};
ghost use Rattle.ws_driver.specs.Causes.{ReadsInput, Reads, IsUnread};
ghost use Rattle.ws_driver.specs.Answers.{IsGiven, IsAnswerOf};

use crate::answer::Answer;
use crate::front::accepted;
use crate::outcome::{answer_to, refused};
use crate::request::Request;
use crate::source::SourceEnd;
use std::alloc::Global;
use ws_io::{Files, ReadEnd, read_whole};
use ws_sema::Checked;

/// The most bytes of a source.
pub const SOURCE_LIMIT: u64 = 1_048_576;

/// The most bytes of the data.
pub const DATA_LIMIT: u64 = 16_777_216;

/// The data; nothing where no file is read.
fn read_input<F: Files>(
    alloc: Global,
    files: &mut F,
    input: Option<&str>,
) -> Result<Vec<u8>, ReadEnd>
    ensures whole { IfOk result (λ bytes. IfSome (input_told (F.told files.old) (option_copied input.entry)) (λ file. bytes.items ≡ file)) }
    ensures within { IfOk result (λ bytes. vec_len bytes ≤ DATA_LIMIT) }
    ensures unread { IfErr result (IsUnread (F.told files.old) (F.faults files.old) (F.faults files.new) (ReadsInput (option_copied input.entry))) }
{
    match input {
        Some(name) => read_whole(alloc, files, name, DATA_LIMIT),
        None => Ok(Vec::new(alloc)),
    }
}

/// The answer to an accepted source.
fn given<F: Files>(
    alloc: Global,
    files: &mut F,
    source: &Checked,
    request: Request<'_>,
) -> Result<(Answer, Vec<u8>), ReadEnd>
    ensures answer { IfOk result (λ r. IsGiven request.entry.emit source.now (input_told (F.told files.old) (data_of (asked request.entry))) r.0 r.1.items) }
    ensures unread { IfErr result (IsUnread (F.told files.old) (F.faults files.old) (F.faults files.new) (ReadsInput (data_of (asked request.entry)))) }
{
    let input = read_input(alloc, files, request.data_name())?;
    match answer_to(alloc, request.emit, source, input.as_slice()) {
        Ok(answer) => Ok(answer),
        Err(_) => Err(ReadEnd::Memory),
    }
}

/// The answer to a request.
pub fn answered<F: Files>(
    alloc: Global,
    files: &mut F,
    request: Request<'_>,
) -> Result<(Answer, Vec<u8>), ReadEnd>
    ensures answer { IfOk result (λ r. IsAnswerOf (F.told files.old) (asked request.entry) r.0 r.1.items) }
    ensures unread { IfErr result (IsUnread (F.told files.old) (F.faults files.old) (F.faults files.new) (Reads (F.told files.old) (asked request.entry))) }
{
    let source = match read_whole(alloc, files, request.source, SOURCE_LIMIT) {
        Ok(source) => source,
        Err(end) => return Err(end),
    };
    match accepted(alloc, source.as_slice()) {
        Ok(checked) => given(alloc, files, &checked, request),
        Err(SourceEnd::Refused(refusal)) => match refused(alloc, refusal) {
            Ok(answer) => Ok(answer),
            Err(_) => Err(ReadEnd::Memory),
        },
        Err(SourceEnd::Memory) => Err(ReadEnd::Memory),
    }
}
