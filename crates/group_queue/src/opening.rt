//! How a group is opened: its queues, its ports and its places.
ghost use Rattle.std.specs.Prelude.{◌≡◌, ◌≢◌, ◌≤◌, ◌<◌, ◌+◌, [], IfOk, MatchOption, All, vec_capacity};
ghost use Rattle.limits.specs.Limits.{most_members, most_ports, most_waiting};
ghost use Rattle.crossbeam_queue.specs.Passes.{view};
ghost use Rattle.group_queue.specs.Views.{keeper};

use crate::group::SharedGroup;
use crate::main_queue::MainPass;
use crate::place::{Passes, Place};
use crate::port::Port;
use crate::witness::{LawfulWitness, Nobody};
use crate::{main_queue, returns_queue};
use gate_word::Gate;
use group_jobs::{Docket, JobError};
use shared_ledger::{Giver, SharedLedger};
use std::alloc::Global;
use std::marker::PhantomData;

impl<'a> SharedGroup<'a> {
    ghost use Rattle.group_queue.specs.Ports.{IsPortOf, AreNewPorts};
    ghost use Rattle.group_queue.specs.Places.{IsPlaceOf, AreNewPlaces};

    /// A group behind a gate, with all its ports and places, numbered from 0 on. It has 1 to 64 ports, 1 to 32 places, and
    /// room for 1 to 65,536 messages that were never handed out.
    ///
    /// # Errors
    ///
    /// 503 [`JobError::Memory`].
    pub fn open(
        alloc: Global,
        gate: &'a Gate,
        slot: u8,
        ports: u8,
        places: u8,
        capacity: usize,
    ) -> Result<(SharedGroup<'a>, Vec<Port>, Vec<Place>), JobError>
        requires ports { (1 ≤ ports) × (ports ≤ most_ports) }
        requires places { (1 ≤ places) × (places ≤ most_members) }
        requires capacity { (1 ≤ capacity) × (capacity ≤ most_waiting) }
        ensures group { IfOk result (λ opened. (opened.0.slot ≡ slot) × (opened.0.capacity ≡ capacity) × (opened.0.gate ≡ gate.entry.now)) }
        ensures shape { IfOk result (λ opened. (opened.0.shape.ports ≡ ports) × (opened.0.shape.places ≡ places)) }
        ensures ports { IfOk result (λ opened. AreNewPorts opened.0 ports opened.1.items) }
        ensures places { IfOk result (λ opened. AreNewPlaces opened.0 places opened.2.items) }

        // Each of them is one of this group.
        ensures each_port { IfOk result (λ opened. All (IsPortOf opened.0) opened.1.items) }
        ensures each_place { IfOk result (λ opened. All (IsPlaceOf opened.0) opened.2.items) }
    {
        SharedGroup::open_with_witness(alloc, gate, slot, ports, places, capacity)
    }
}

impl<'a, W: LawfulWitness> SharedGroup<'a, W> {
    ghost use Rattle.group_queue.specs.Ports.{new_port, IsPortOf, AreNewPorts};
    ghost use Rattle.group_queue.specs.Places.{IsNewPlace, IsPlaceOf, AreNewPlaces};
    ghost use Rattle.shared_ledger.specs.Givers.{new_giver};
    ghost use Rattle.group_queue.specs.Openings.{IsPassTo, AreLeftOf, AreNewPasses};

    /// The same as [`SharedGroup::open`], of a group with a witness.
    ///
    /// # Errors
    ///
    /// 503 [`JobError::Memory`].
    pub fn open_with_witness(
        alloc: Global,
        gate: &'a Gate,
        slot: u8,
        ports: u8,
        places: u8,
        capacity: usize,
    ) -> Result<(SharedGroup<'a, W>, Vec<Port<W>>, Vec<Place<W>>), JobError>
        requires ports { (1 ≤ ports) × (ports ≤ most_ports) }
        requires places { (1 ≤ places) × (places ≤ most_members) }
        requires capacity { (1 ≤ capacity) × (capacity ≤ most_waiting) }
        ensures group { IfOk result (λ opened. (opened.0.slot ≡ slot) × (opened.0.capacity ≡ capacity) × (opened.0.gate ≡ gate.entry.now)) }
        ensures shape { IfOk result (λ opened. (opened.0.shape.ports ≡ ports) × (opened.0.shape.places ≡ places)) }
        ensures ports { IfOk result (λ opened. AreNewPorts opened.0 ports opened.1.items) }
        ensures places { IfOk result (λ opened. AreNewPlaces opened.0 places opened.2.items) }

        // Each of them is one of this group.
        ensures each_port { IfOk result (λ opened. All (IsPortOf opened.0) opened.1.items) }
        ensures each_place { IfOk result (λ opened. All (IsPlaceOf opened.0) opened.2.items) }
    {
        let mut all_ports = Vec::with_capacity(alloc, usize::from(ports))?;
        let mut all_places = Vec::with_capacity(alloc, usize::from(places))?;
        let (main, mut pass) = main_queue::open(alloc, capacity)?;
        let (ledger, giver) = SharedLedger::open(alloc)?;
        let (returns, part) = returns_queue::open(alloc)?;
        let group = SharedGroup {
            slot,
            ports,
            places,
            gate,
            main,
            returns,
            ledger,
        };
        group.fill_ports(&mut pass, &mut all_ports);
        let left = Passes {
            main: pass,
            returns: part,
        };
        group.fill_places(alloc, left, giver, &mut all_places);
        Ok((group, all_ports, all_places))
    }

    // Makes all ports.
    fn fill_ports(&self, pass: &mut MainPass, ports: &mut Vec<Port<W>>)
        requires pass { IsPassTo self.now pass.old }
        requires none { view pass.old ≡ keeper 0 0 }
        requires room { (ports.old.items ≡ []) × (self.now.shape.ports ≤ vec_capacity ports.old) }
        ensures pass { IsPassTo self.now pass.new }
        ensures rest { view pass.new ≡ keeper self.now.shape.ports 0 }
        ensures ports { AreNewPorts self.now self.now.shape.ports ports.new.items }
    {
        for number in 0..self.ports {
            ports.push_reserved(self.new_port(pass, number));
        }
    }

    // Gives the next port away, which has this number.
    fn new_port(&self, pass: &mut MainPass, number: u8) -> Port<W>
        requires pass { IsPassTo self.now pass.old }
        requires next { view pass.old ≡ keeper number 0 }
        ensures pass { IsPassTo self.now pass.new }
        ensures rest { view pass.new ≡ keeper (number + 1) 0 }
        ensures port { result ≡ new_port self.now number }
    {
        let own = main_queue::cut_port(&self.main, pass);
        Port {
            group: self.slot,
            number,
            accepted: 0,
            pass: own,
            witness: PhantomData,
        }
    }

    // Makes all places. The last one has what is left of the passes.
    fn fill_places(&self, alloc: Global, left: Passes, giver: Giver<W>, places: &mut Vec<Place<W>>)
        requires left { AreLeftOf self.now 0 left }
        requires giver { giver ≡ new_giver self.now.ledger 64 }
        requires count { (1 ≤ self.now.shape.places) × (self.now.shape.places ≤ most_members) }
        requires room { (places.old.items ≡ []) × (self.now.shape.places ≤ vec_capacity places.old) }
        ensures places { AreNewPlaces self.now self.now.shape.places places.new.items }
    {
        let mut left = left;
        let mut giver = giver;
        let last = self.places - 1;
        for number in 0..last {
            let passes = self.cut(&mut left, number);
            let own = self.ledger.another(&mut giver);
            places.push_reserved(self.new_place(alloc, number, passes, own, None));
        }
        let passes = self.cut(&mut left, last);
        places.push_reserved(self.new_place(alloc, last, passes, giver, Some(left)));
    }

    // Gives the passes of the next place away, which has this number.
    fn cut(&self, left: &mut Passes, number: u8) -> Passes
        requires left { AreLeftOf self.now number left.old }
        requires few { number < most_members }
        ensures left { AreLeftOf self.now (number + 1) left.new }
        ensures new { AreNewPasses self.now number result }
    {
        Passes {
            main: main_queue::cut_place(&self.main, &mut left.main),
            returns: returns_queue::cut(&self.returns, &mut left.returns),
        }
    }

    // A place with these passes, and in the last one what is left.
    fn new_place(
        &self,
        alloc: Global,
        number: u8,
        passes: Passes,
        giver: Giver<W>,
        keeper: Option<Passes>,
    ) -> Place<W>
        requires passes { AreNewPasses self.now number passes }
        requires giver { giver ≡ new_giver self.now.ledger giver.parts }
        requires parts { (1 ≤ giver.parts) × (number + 1 ≡ self.now.shape.places → 65 ≤ giver.parts + self.now.shape.places) }
        requires number { number < self.now.shape.places }
        requires keeper { MatchOption keeper (number + 1 ≢ self.now.shape.places) (AreLeftOf self.now self.now.shape.places) }
        requires few { self.now.shape.places ≤ most_members }
        ensures place { IsNewPlace self.now number result }
    {
        Place {
            group: self.slot,
            number,
            docket: Docket::new(alloc),
            passes,
            giver,
            keeper,
            witness: PhantomData,
        }
    }
}
