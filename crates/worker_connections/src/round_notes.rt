//! What is noted of the rounds of a worker's connections, for whoever asks. No contract speaks of it.
ghost use Rattle.std.specs.Prelude.{◌≡◌};

use conn_service::{AnswerCounts, LastWord, Service};
use conn_supply::HoldingPlace;
use transport::Transport;

/// What the rounds of a worker's connections came to.
#[derive(Drop)]
pub(crate) struct RoundNotes {
    /// What was answered to their clients.
    pub(crate) answers: AnswerCounts,
    /// How many clients have their session.
    pub(crate) connected: u64,
    /// The latest CONNACK or DISCONNECT to the client of the latest round.
    pub(crate) last_word: Option<LastWord>,
    /// Whether that client got its session in that round, and has it.
    pub(crate) got_session: bool,
}

impl RoundNotes {
    /// There was no round yet.
    pub(crate) const NONE: RoundNotes = RoundNotes {
        answers: AnswerCounts::NONE,
        connected: 0,
        last_word: None,
        got_session: false,
    };

    /// A connection went on by a round, before which its client had its session, or had none.
    pub(crate) fn note<P: HoldingPlace, T: Transport>(
        &mut self,
        had_session: bool,
        service: &mut Service<P, T>,
    )
        ensures { service.new ≡ service.old }
    {
        let has_session = service.client_identifier().is_some();
        service.take_answers(&mut self.answers);
        self.last_word = service.last_word();
        self.got_session = has_session && !had_session;
        self.connected = self
            .connected
            .wrapping_add(u64::from(has_session))
            .wrapping_sub(u64::from(had_session));
    }
}
