//! The words after the name of `voskligan`.

ghost use Rattle.std.specs.Prelude.{◌≡◌, map, option_copied, option_map, string_bytes};
ghost use Rattle.stark_cli.specs.Arguments.{alone, bits_of, input_of, input_view, inputs_of, inputs_view, options_view, path_of, request_of, request_view, task_of, task_view, unless_twice, verb_of, with_inputs, with_binary, with_floor, with_one, with_output, with_quiet, with_two, with_unchecked, without_options};

use crate::statements::Verb;
use stark_answers::{ProofForm, TraceTask};

/// How the program is used.
pub const USAGE: &str = "usage: voskligan verify [--at-least BITS] [--quiet] STATEMENT [PROOF]
       voskligan verify --key KEY [--quiet] STATEMENT [PROOF]
       voskligan prove [--unchecked] [--binary] [--quiet] [--output FILE] STATEMENT [TRACE]
       voskligan check [--quiet] STATEMENT [TRACE]
       voskligan key STATEMENT
       voskligan show STATEMENT
       voskligan --help | --version
Each word is a file's path, or - for standard input, which a last word that is left out stands for.
A path that begins with -- is written ./--NAME.
  --at-least BITS  judges a proof only where no fewer bits are proved of such proofs at its height
  --key KEY        verifies with the statement's key in the file KEY, which `key` wrote once
  --unchecked      proves a trace whether or not it satisfies the AIR
  --binary         writes the proof as bytes, which verify takes as well, in place of JSON
  --output FILE    writes the proof to FILE, whole or not at all, in place of standard output
  --quiet          prints no stages; without it, each goes to standard error where that is a terminal
Status 0: accepted, proved, satisfied, shown, a key made. 1: refused, a constraint broken. 2: not judged.
Status 4: not judged, since fewer bits are proved.
";

/// What a word names.
#[derive(Clone, Copy, Debug)]
pub enum InputWord<'w> {
    /// Nothing is read.
    Nothing,
    /// Standard input: the word `-`, or none where one is wanted.
    Standard,
    /// The file of this path.
    File(&'w str),
}

/// What names a statement, and a proof or a trace.
#[derive(Clone, Copy, Debug)]
struct Inputs<'w> {
    statement: InputWord<'w>,
    second: InputWord<'w>,
}

/// A verb and its options.
#[derive(Clone, Copy, Debug)]
pub(crate) struct Options<'w> {
    pub(crate) verb: Verb,
    output: Option<&'w str>,
    quiet: bool,
}

/// What is asked for a statement, what names the statement and the second input, where a proof is
/// written to if not to standard output, and whether nothing is said of the stages.
#[derive(Clone, Copy, Debug)]
pub struct Task<'w> {
    pub verb: Verb,
    pub statement: InputWord<'w>,
    pub second: InputWord<'w>,
    pub output: Option<&'w str>,
    pub quiet: bool,
}

/// What the words ask for.
#[derive(Clone, Copy, Debug)]
pub enum Request<'w> {
    /// How the program is used.
    Help,
    /// Its version.
    Version,
    Run(Task<'w>),
    /// The words are others.
    Unknown,
}

/// The verb that a word is.
#[tactic(auto, unfolding(crate::specs::Arguments::verb_of))]
pub(crate) fn verb_of(word: &str) -> Option<Verb>
    ensures { result ≡ verb_of word.now }
{
    match word {
        "verify" => Some(Verb::Verify),
        "prove" => Some(Verb::Trace(TraceTask::Prove(ProofForm::Json))),
        "check" => Some(Verb::Trace(TraceTask::Check)),
        "show" => Some(Verb::Show),
        _ => None,
    }
}

/// The path that a word is; none where it is `-`, or begins as an option does.
#[tactic(auto, unfolding(crate::specs::Arguments::path_of))]
pub fn path_of(word: &str) -> Option<&str>
    ensures { option_copied result ≡ path_of word.now }
{
    if word == "-" || word.starts_with("--") {
        None
    } else {
        Some(word)
    }
}

/// The number of bits that a word is, in decimal digits; none where it is no such number, or 2^64
/// and more.
pub(crate) fn bits_of(word: &str) -> Option<usize>
    ensures { result ≡ bits_of word.now }
{
    word.parse::<usize>().ok()
}

/// The input that a word names: standard input or a file.
#[tactic(auto, unfolding(crate::specs::Arguments::input_of))]
pub fn input_of(word: &str) -> Option<InputWord<'_>>
    ensures { option_map input_view result ≡ input_of word.now }
{
    if word == "-" {
        return Some(InputWord::Standard);
    }
    let path = path_of(word)?;
    Some(InputWord::File(path))
}

/// The inputs, unless standard input would be read twice.
fn unless_twice<'w>(statement: InputWord<'w>, second: InputWord<'w>) -> Option<Inputs<'w>>
    ensures { option_map inputs_view result ≡ unless_twice (input_view statement.entry)
        (input_view second.entry) }
{
    match (statement, second) {
        (InputWord::Standard, InputWord::Standard) => None,
        (statement, second) => Some(Inputs { statement, second }),
    }
}

/// A verb's inputs, of which one is named: the proof or the trace is standard input.
fn with_one<'w>(verb: Verb, statement: InputWord<'w>) -> Option<Inputs<'w>>
    ensures { option_map inputs_view result ≡ with_one verb (input_view statement.entry) }
{
    match verb {
        Verb::Show => Some(Inputs {
            statement,
            second: InputWord::Nothing,
        }),
        _ => unless_twice(statement, InputWord::Standard),
    }
}

/// A verb's inputs, of which both are named; to show takes one.
fn with_two<'w>(verb: Verb, statement: InputWord<'w>, second: InputWord<'w>) -> Option<Inputs<'w>>
    ensures { option_map inputs_view result ≡ with_two verb (input_view statement.entry)
        (input_view second.entry) }
{
    match verb {
        Verb::Show => None,
        _ => unless_twice(statement, second),
    }
}

/// The inputs that words name for a verb.
#[tactic(auto, unfolding(crate::specs::Arguments::inputs_of))]
fn inputs_of<'w>(verb: Verb, words: &'w [String]) -> Option<Inputs<'w>>
    ensures { option_map inputs_view result ≡ inputs_of verb (map string_bytes words.now) }
{
    match words {
        [statement] => with_one(verb, input_of(statement.as_str())?),
        [statement, second] => {
            let first = input_of(statement.as_str())?;
            with_two(verb, first, input_of(second.as_str())?)
        }
        _ => None,
    }
}

impl<'w> Options<'w> {
    /// A verb without options.
    pub(crate) fn none(verb: Verb) -> Options<'w>
        ensures { options_view result ≡ without_options verb }
    {
        Options {
            verb,
            output: None,
            quiet: false,
        }
    }

    /// With `--quiet`; none where it is there, or the verb is to show.
    #[tactic(auto, unfolding(crate::specs::Arguments::with_quiet))]
    pub(crate) fn with_quiet(self) -> Option<Options<'w>>
        ensures { option_map options_view result ≡ with_quiet (options_view self.entry) }
    {
        match self.verb {
            Verb::Show => None,
            _ if self.quiet => None,
            _ => Some(Options {
                quiet: true,
                ..self
            }),
        }
    }

    /// With `--at-least` and the word after it; none where it is there, the verb isn't to verify or
    /// the word no number of bits.
    #[tactic(auto, unfolding(crate::specs::Arguments::with_floor))]
    pub(crate) fn with_floor(self, word: &str) -> Option<Options<'w>>
        ensures { option_map options_view result ≡ with_floor word.now (options_view self.entry) }
    {
        match self.verb {
            Verb::Verify => {
                let floor = bits_of(word)?;
                Some(Options {
                    verb: Verb::VerifyAtLeast(floor),
                    ..self
                })
            }
            _ => None,
        }
    }

    /// With `--unchecked`; none where it is there, or the verb is no prover's.
    #[tactic(auto, unfolding(crate::specs::Arguments::with_unchecked))]
    pub(crate) fn with_unchecked(self) -> Option<Options<'w>>
        ensures { option_map options_view result ≡ with_unchecked (options_view self.entry) }
    {
        match self.verb {
            Verb::Trace(TraceTask::Prove(form)) => Some(Options {
                verb: Verb::Trace(TraceTask::ProveUnchecked(form)),
                ..self
            }),
            _ => None,
        }
    }

    /// With `--binary`; none where it is there, or the verb is no prover's.
    #[tactic(auto, unfolding(crate::specs::Arguments::with_binary))]
    pub(crate) fn with_binary(self) -> Option<Options<'w>>
        ensures { option_map options_view result ≡ with_binary (options_view self.entry) }
    {
        let task = match self.verb {
            Verb::Trace(TraceTask::Prove(ProofForm::Json)) => TraceTask::Prove(ProofForm::Bytes),
            Verb::Trace(TraceTask::ProveUnchecked(ProofForm::Json)) => {
                TraceTask::ProveUnchecked(ProofForm::Bytes)
            }
            _ => return None,
        };
        Some(Options {
            verb: Verb::Trace(task),
            ..self
        })
    }

    /// With `--output` and the word after it; none where it is there, the verb is no prover's or
    /// the word no path.
    #[tactic(auto, unfolding(crate::specs::Arguments::with_output))]
    pub(crate) fn with_output(self, word: &'w str) -> Option<Options<'w>>
        ensures { option_map options_view result ≡ with_output word.now
            (options_view self.entry) }
    {
        match (self.verb, self.output) {
            (Verb::Trace(TraceTask::Prove(_) | TraceTask::ProveUnchecked(_)), None) => {
                let path = path_of(word)?;
                Some(Options {
                    output: Some(path),
                    ..self
                })
            }
            _ => None,
        }
    }
}

/// What a verb is asked for, under options, with the words that name its inputs.
#[tactic(auto, unfolding(crate::specs::Arguments::with_inputs))]
fn with_inputs<'w>(options: Options<'w>, words: &'w [String]) -> Option<Task<'w>>
    ensures { option_map task_view result ≡ with_inputs (options_view options.entry)
        (map string_bytes words.now) }
{
    let inputs = inputs_of(options.verb, words)?;
    Some(Task {
        verb: options.verb,
        statement: inputs.statement,
        second: inputs.second,
        output: options.output,
        quiet: options.quiet,
    })
}

/// What a verb is asked for, under options, with the words after these: more options, one by one,
/// and then its inputs.
fn task_of<'w>(options: Options<'w>, words: &'w [String]) -> Option<Task<'w>>
    ensures { option_map task_view result ≡ task_of (options_view options.entry)
        (map string_bytes words.now) }
{
    match words {
        [] => None,
        [word, rest @ ..] => match word.as_str() {
            "--quiet" => task_of(options.with_quiet()?, rest),
            "--at-least" => match rest {
                [] => None,
                [bits, rest @ ..] => task_of(options.with_floor(bits.as_str())?, rest),
            },
            "--unchecked" => task_of(options.with_unchecked()?, rest),
            "--binary" => task_of(options.with_binary()?, rest),
            "--output" => match rest {
                [] => None,
                [path, rest @ ..] => task_of(options.with_output(path.as_str())?, rest),
            },
            _ => with_inputs(options, words),
        },
    }
}

/// What one word asks for.
fn alone(word: &str) -> Request<'_>
    ensures { request_view result ≡ alone word.now }
{
    match word {
        "--help" | "-h" | "help" => Request::Help,
        "--version" => Request::Version,
        _ => Request::Unknown,
    }
}

/// What the words after the program's name ask for, each compared whole.
#[tactic(auto, unfolding(crate::specs::Arguments::request_of))]
pub fn request_of<'w>(words: &'w [String]) -> Request<'w>
    ensures { request_view result ≡ request_of (map string_bytes words.now) }
{
    match words {
        [] => Request::Unknown,
        [word] => alone(word.as_str()),
        [verb, rest @ ..] => match verb_of(verb.as_str()) {
            Some(verb) => match task_of(Options::none(verb), rest) {
                Some(task) => Request::Run(task),
                None => Request::Unknown,
            },
            None => Request::Unknown,
        },
    }
}
