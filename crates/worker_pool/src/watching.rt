//! What is done beside the workers.
ghost use Rattle.std.specs.Prelude.{⊤};

/// What a thread beside the workers does: it waits for what is to end the broker, such as the end of an input, and then shuts its gate, and ends its source.
pub trait Watch: Send {
    /// What it watches.
    type Input: Send;

    /// What has happened where it watched an input: a relation of what it was and has become, and of what the input was and has become.
    ghost has_watched: { Self → Self → Self.Input → Self.Input → Type 0 } = { λ old new before after. ⊤ };

    /// Does it.
    fn run(&mut self, input: &mut Self::Input)
        ensures { has_watched self.old self.new input.old input.new };
}
