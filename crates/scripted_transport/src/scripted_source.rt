//! A source that plays a script.
ghost use Rattle.std.specs.Prelude.{◌≡◌, ◌⊎◌, List, [], ◌∷◌, None};
ghost use Rattle.transport.specs.Counting.{ComesNew, MayCome, after_arrival};
ghost use Rattle.scripted_transport.specs.Arrivals.{ComeNew, Gives};
ghost use Rattle.transport.specs.declared.answers.Arrival.{Arrival};

use std::collections::VecDeque;
use std::marker::Model;
use transport::{Arrival, Source, Tally, Transport};

/// A source that gives these, one after another, and then ends. Of each transport that it gives nothing was counted yet.
#[derive(Drop)]
pub struct ScriptedSource<T: Transport> {
    turns: VecDeque<Arrival<T>>,
    tally: Tally,
}

impl<T: Transport> Model for ScriptedSource<T> {
    ghost use Rattle.scripted_transport.specs.Arrivals.{Arrivals, ComeNew};

    ghost Value = { Arrivals T };

    ghost view = { λ s. record { turns = s.turns.items; tally = s.tally } };

    ghost invariant = { λ s. ComeNew T.counts s.turns.items };
}

impl<T: Transport> ScriptedSource<T> {
    /// A source of which nothing was asked yet.
    pub fn new(turns: Vec<Arrival<T>>) -> ScriptedSource<T>
        requires { ComeNew T.counts turns.items }
        ensures { result ≡ record { turns = turns.items; tally = record { failures = 0; arrivals = 0 } } }
    {
        ScriptedSource {
            turns: VecDeque::from(turns),
            tally: Tally::NONE,
        }
    }
}

impl<T: Transport> Source<T> for ScriptedSource<T> {
    ghost tally = { λ s. s.tally };

    ghost arrived = { λ s. None };

    fn next(&mut self) -> Arrival<T>
        requires { MayCome self.old.tally }
        ensures tally { self.new.tally ≡ after_arrival result self.old.tally }
        ensures new { ComesNew T.counts result }
        ensures turns { Gives self.old.turns result self.new.turns }
    {
        match self.turns.pop_front() {
            Some(arrival) => {
                self.tally.count_arrival(&arrival);
                arrival
            }
            None => Arrival::End,
        }
    }

    fn failures(&self) -> u64 {
        self.tally.failures
    }

    fn arrivals(&self) -> u64 {
        self.tally.arrivals
    }
}
