//! The words after the name of `stark_run`.

ghost use Rattle.std.specs.Prelude.{◌≡◌, map, string_bytes};
ghost use Rattle.stark_cli.specs.Words.{command_of, named_air};

use stark_commands::SampleAir;

/// What the words ask for.
#[derive(Clone, Copy, Debug, PartialEq, Eq)]
pub enum Command {
    /// To check the numbers of a proof for an AIR.
    Check(SampleAir),
    /// To verify a proof for an AIR.
    Verify(SampleAir),
    /// To prove a trace for an AIR.
    Prove(SampleAir),
}

/// The AIR of a name, compared whole.
#[tactic(auto, unfolding(crate::specs::Words::named_air))]
fn named_air(name: &str) -> Option<SampleAir>
    ensures { result ≡ named_air name.now }
{
    match name {
        "counter" => Some(SampleAir::Counter),
        "cubic" => Some(SampleAir::Cubic),
        "fibonacci" => Some(SampleAir::Fibonacci),
        "periodic" => Some(SampleAir::Periodic),
        "preprocessed" => Some(SampleAir::Preprocessed),
        "pair" => Some(SampleAir::Pair),
        _ => None,
    }
}

/// The command that the words name, compared whole.
#[tactic(auto, unfolding(crate::specs::Words::command_of))]
pub fn named_command(words: &[String]) -> Option<Command>
    ensures { result ≡ command_of (map string_bytes words.now) }
{
    match words {
        [verb, air] if verb.as_str() == "check" => {
            let air = named_air(air.as_str())?;
            Some(Command::Check(air))
        }
        [verb, air] if verb.as_str() == "verify" => {
            let air = named_air(air.as_str())?;
            Some(Command::Verify(air))
        }
        [verb, air] if verb.as_str() == "prove" => {
            let air = named_air(air.as_str())?;
            Some(Command::Prove(air))
        }
        _ => None,
    }
}
