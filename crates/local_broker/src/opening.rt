//! How a broker on one thread begins.
ghost use Rattle.std.specs.Prelude.{◌≡◌, ℕ, ◌<◌, length, Some, slice_get, IfOk};
ghost use Rattle.session_desk.specs.Books.{new_books};
ghost use Rattle.local_broker.specs.Broker.{HasAllPlaces, AreNewGroups};

use crate::place::LocalPlace;
use conn_supply::NoMemory;
use group_jobs::Envelope;
use local_group::LocalGroup;
use session_desk::Desk;
use std::alloc::Global;

/// How many groups there are.
pub(crate) const SLOTS: u8 = 8;

/// How many places there are, 32 in each group.
const CELLS: u16 = 256;

/// A group for each slot, in whose queue so many messages may wait.
pub(crate) fn open_groups(alloc: Global, capacity: usize) -> Result<Vec<LocalGroup>, NoMemory>
    ensures many { IfOk result (λ groups. length groups.items ≡ 8) }
    ensures fresh { IfOk result (λ groups. AreNewGroups capacity groups.items) }
{
    let mut groups = Vec::with_capacity(alloc, usize::from(SLOTS))?;
    'slots: for slot in 0..SLOTS {
        groups.push(LocalGroup::open(alloc, slot, capacity)?)?;
    }
    Ok(groups)
}

/// A desk without sessions that has all places.
pub(crate) fn open_desk(alloc: Global) -> Result<Desk<Envelope, LocalPlace>, NoMemory>
    ensures { IfOk result HasAllPlaces }
{
    match Desk::new(alloc) {
        Ok(mut desk) => {
            add_places(&mut desk);
            Ok(desk)
        }
        Err(_) => Err(NoMemory),
    }
}

/// Gives all places to a new desk.
fn add_places(desk: &mut Desk<Envelope, LocalPlace>)
    requires { desk.old ≡ new_books }
    ensures { HasAllPlaces desk.new }
{
    'cells: for cell in 0..CELLS {
        let _back = desk.take_place(LocalPlace::at(cell as u8));
    }
}
