//! How a broker's groups are opened: eight at one gate, with a port of each group for each worker and all places.
ghost use Rattle.std.specs.Prelude.{◌≡◌, ◌≤◌, IfOk};
ghost use Rattle.limits.specs.Limits.{most_ports, most_waiting};
ghost use Rattle.broker_groups.specs.Openings.{IsBrokerOpened, named_by};
ghost use Rattle.broker_groups.specs.Naming.{IsOfBroker};

use gate_word::Gate;
use group_jobs::JobError;
use group_queue::{LawfulWitness, Nobody, Place, Port, SharedGroup, Witness};
use limits::{MOST_GROUPS, MOST_MEMBERS};
use std::alloc::Global;

/// The groups of one broker as they were opened, one for each slot, in the order of slots, with the ports and the places of
/// each.
pub struct Opened<'a, W: Witness = Nobody> {
    pub groups: Vec<SharedGroup<'a, W>>,
    pub ports: Vec<Vec<Port<W>>>,
    pub places: Vec<Vec<Place<W>>>,
}

impl<'a, W: LawfulWitness> Opened<'a, W> {
    /// Opens the groups of a broker behind a gate. In each at most `capacity` messages wait for their first hand-out, and each
    /// has a port for each worker.
    ///
    /// # Errors
    ///
    /// 503 [`JobError::Memory`]. The groups that were opened are given up.
    pub fn open(
        alloc: Global,
        gate: &'a Gate,
        capacity: usize,
        workers: u8,
    ) -> Result<Opened<'a, W>, JobError>
        requires capacity { (1 ≤ capacity) × (capacity ≤ most_waiting) }
        requires workers { (1 ≤ workers) × (workers ≤ most_ports) }
        ensures opened { IfOk result (IsBrokerOpened gate.entry.now capacity workers) }
        ensures named { IfOk result (λ opened. IsOfBroker gate.entry.now (named_by opened.groups.items) workers opened) }
    {
        let mut ports = Vec::with_capacity(alloc, usize::from(MOST_GROUPS))?;
        let mut places = Vec::with_capacity(alloc, usize::from(MOST_GROUPS))?;
        let mut groups = Vec::with_capacity(alloc, usize::from(MOST_GROUPS))?;
        'slots: for slot in 0..MOST_GROUPS {
            match SharedGroup::open_with_witness(
                alloc,
                gate,
                slot,
                workers,
                MOST_MEMBERS,
                capacity,
            ) {
                Ok((group, its_ports, its_places)) => {
                    groups.push_reserved(group);
                    ports.push_reserved(its_ports);
                    places.push_reserved(its_places);
                }
                Err(error) => {
                    abandon_all(groups);
                    return Err(error);
                }
            }
        }
        Ok(Opened {
            groups,
            ports,
            places,
        })
    }
}

impl<'a, W: Witness> Opened<'a, W> {
    /// Gives all of them up, without a word of what became of their messages.
    pub fn abandon(self) {
        let Opened {
            groups,
            ports: _,
            places: _,
        } = self;
        abandon_all(groups);
    }
}

/// Gives groups up.
pub(crate) fn abandon_all<W: Witness>(groups: Vec<SharedGroup<'_, W>>) {
    let mut groups = groups;
    for _ in 0..groups.len() {
        let Some(group) = groups.pop() else {
            unreachable!()
        };
        group.abandon();
    }
    groups.destroy_empty();
}
