//! What the words ask for.

ghost use Rattle.std.specs.Prelude.{◌≡◌, map, string_bytes};
ghost use Rattle.std.specs.Option.{option_copied, option_map};
ghost use Rattle.ws_driver.specs.Request as request;

/// What is written of an accepted source: the report of its run, its HLFIR, or the schedule of that.
#[derive(Clone, Copy, Debug, PartialEq, Eq)]
pub enum Emit {
    Run,
    Hlfir,
    Schedule,
}

impl Emit {
    /// Whether the source is run. Otherwise it is translated.
    pub fn is_run(self) -> bool
        ensures { result ≡ request.is_run self }
    {
        matches!(self, Emit::Run)
    }
}

/// What is wanted, the file of the source, and that of the data where one is named.
#[derive(Clone, Copy)]
pub struct Request<'a> {
    pub emit: Emit,
    pub source: &'a str,
    pub input: Option<&'a str>,
}

impl<'a> Request<'a> {
    /// The file that the data is read from. A translation reads none.
    pub fn data_name(self) -> Option<&'a str>
        ensures { option_copied result ≡ request.data_of (request.asked self.entry) }
    {
        if self.emit.is_run() { self.input } else { None }
    }
}

fn is_name(word: &str) -> bool
    ensures { result ≡ request.is_name word.now }
{
    !word.as_bytes().starts_with(b"-")
}

/// The files that the words name.
fn named(emit: Emit, words: &[String]) -> Option<Request<'_>>
    ensures { option_map request.asked result ≡ request.named emit (map string_bytes words.now) }
{
    match words {
        [source] if is_name(source.as_str()) => Some(Request {
            emit,
            source: source.as_str(),
            input: None,
        }),
        [source, input] if is_name(source.as_str()) && is_name(input.as_str()) => Some(Request {
            emit,
            source: source.as_str(),
            input: Some(input.as_str()),
        }),
        _ => None,
    }
}

fn emit_of(word: &str) -> Option<Emit>
    ensures { result ≡ request.emit_of word.now }
{
    let word = word.as_bytes();
    if word == b"run".as_slice() {
        Some(Emit::Run)
    } else if word == b"hlfir".as_slice() {
        Some(Emit::Hlfir)
    } else if word == b"schedule".as_slice() {
        Some(Emit::Schedule)
    } else {
        None
    }
}

/// What the words ask for, where they are a request.
pub fn requested(words: &[String]) -> Option<Request<'_>>
    ensures { option_map request.asked result ≡ request.requested (map string_bytes words.now) }
{
    match words {
        [option, value, names @ ..] => {
            if option.as_str().as_bytes() == b"--emit".as_slice() {
                named(emit_of(value.as_str())?, names)
            } else {
                named(Emit::Run, words)
            }
        }
        _ => named(Emit::Run, words),
    }
}

/// The same, where they are a request for a translation.
pub fn translation(words: &[String]) -> Option<Request<'_>>
    ensures { option_map request.asked result ≡ request.translation (map string_bytes words.now) }
{
    let request = requested(words)?;
    if request.emit.is_run() {
        None
    } else {
        Some(request)
    }
}
