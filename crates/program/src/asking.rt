//! What words ask for.
ghost use Rattle.std.specs.Prelude.{◌≡◌, map, string_bytes, IfOk, IfErr};
ghost use Rattle.clap.specs.Values.{kind_of};
ghost use Rattle.text_io.specs.declared.error.RunError.TheVariants.{Memory};
ghost use Rattle.program.specs.Asking.{Asks, IsAnswerTo};

use arguments::{Request, arguments};
use clap::Error;
use clap::error::ErrorKind;
use std::alloc::Global;
use std::io;
use text_io::RunError;

/// What is said where a word is no UTF-8 text.
const NO_TEXT: &str = "error: a word is no UTF-8 text\n";

/// What the words of a command line ask for.
#[derive(Drop)]
pub enum Asked {
    /// A command is to be run.
    Run(Request),
    /// This text is to be shown: the help, or the version.
    Show(String),
    /// Nothing: they are wrong, and this is said of them.
    Refuse(String),
}

/// What words ask for, the program's name in front; the words are an error where one of them is no UTF-8 text, or memory
/// was refused for them.
///
/// # Errors
///
/// [`RunError::Memory`].
pub fn asked_by(alloc: Global, words: io::Result<Vec<String>>) -> Result<Asked, RunError>
    ensures { Asks words (λ given. map string_bytes given.items) result }
{
    match words {
        Ok(words) => match arguments(alloc, &words) {
            Ok(request) => Ok(Asked::Run(request)),
            Err(error) => answer(alloc, &error),
        },
        Err(error) if error.kind() == io::ErrorKind::OutOfMemory => Err(RunError::Memory),
        Err(_) => Ok(Asked::Refuse(String::from_str(alloc, NO_TEXT)?)),
    }
}

/// What is done where clap found no request: the help and the version are shown, and every other words are refused.
fn answer(alloc: Global, error: &Error) -> Result<Asked, RunError>
    ensures ok { IfOk result (IsAnswerTo (kind_of error.now)) }
    ensures err { IfErr result (λ error. error ≡ Memory) }
{
    match error.kind() {
        ErrorKind::OutOfMemory => Err(RunError::Memory),
        ErrorKind::DisplayHelp | ErrorKind::DisplayVersion => {
            Ok(Asked::Show(error.to_string(alloc)?))
        }
        _ => Ok(Asked::Refuse(error.to_string(alloc)?)),
    }
}
