//! What holds of the words of the command line.
ghost use Rattle.std.specs.Prelude.{◌≡◌, List};
ghost use Rattle.clap.specs.Words.{Text};
ghost use Rattle.clap.specs.declared.error.kind.ErrorKind.{ErrorKind};
ghost use Rattle.arguments.specs.CommandLine.{AskFor, SpellNoRequest};
ghost use Rattle.arguments.specs.declared.command.Request.{Request};

/// **Words ask for one thing**: for one request at most, of `solo` and `drive` with one setup, of `serve` with one address, port, number of workers, end, time to drain, port of metrics, bound for an
/// address, level of its log, way with parked sessions and with groups, limits of a client, file with users, capacity and groups, and of `hash-password` with one name and one number of iterations (`one`); and where they
/// ask for a request, they do not spell none (`exclusive`).
pub fn one_request_law()
    ensures one { (words : List Text) (first second : Request)
        → AskFor words first → AskFor words second → first ≡ second }
    ensures exclusive { (words : List Text) (request : Request) (kind : ErrorKind)
        → AskFor words request → SpellNoRequest words kind → ⊥ }
{}
