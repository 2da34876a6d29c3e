//! Laws of what is written: what holds of every input. Each is the contract of a function that does nothing, stated over the definitions
//! that the contracts of [`drive_lines`](crate::drive_lines) and [`drive_client`](crate::drive_client) cite.
ghost use Rattle.std.specs.Prelude.{◌≡◌, ℕ, List};
ghost use Rattle.client_table.specs.Clients.{StepOutput};
ghost use Rattle.local_server.specs.declared.event.TimedEvent.{TimedEvent};
ghost use Rattle.conn_rules.specs.declared.setup.Setup.{Setup};
ghost use Rattle.drive.specs.Transcripts.{IsTranscript, IsDriveOutput, IsClientOutput};

/// **Each input has one output**: a list of events has one transcript at most (`transcript`), and so each input has one output, of
/// [`drive_lines`](crate::drive_lines) and of [`drive_client`](crate::drive_client). So what they write is the output that is defined for what they read.
pub fn one_output_law()
    ensures transcript { (lines : StepOutput → List ℕ) (setup : Setup) (events : List TimedEvent) (text text' : List ℕ) →
        IsTranscript lines setup events text → IsTranscript lines setup events text' → text ≡ text' }
    ensures lines { (setup : Setup) (input output output' : List ℕ) →
        IsDriveOutput setup input output → IsDriveOutput setup input output' → output ≡ output' }
    ensures client { (setup : Setup) (input output output' : List ℕ) →
        IsClientOutput setup input output → IsClientOutput setup input output' → output ≡ output' }
{}
