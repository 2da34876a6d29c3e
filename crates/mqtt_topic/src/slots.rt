//! Sets of slots.

ghost use Rattle.std.specs.Prelude.{◌≡◌, ◌≤◌, ◌↔◌, [], length, Contains, IsTrue};
ghost use Rattle.std.specs.Iterator.{YieldsFirst, item_count};
ghost use Rattle.mqtt_topic.specs.Routes.{slots_in};

use std::marker::Model;

/// A set of slots from 0 to 7, in one byte. A contract sees the slots in rising order.
#[derive(Debug, Drop)]
pub struct Slots {
    byte: u8,
}

impl Model for Slots {
    ghost use Rattle.std.specs.Prelude.{List, ℕ};
    ghost use Rattle.mqtt_topic.specs.Routes.{slots_in};

    ghost Value = { List ℕ };

    ghost view = { λ slots. slots_in 8 0 slots.byte };
}

impl Slots {
    /// The set of the byte whose bit n, counted from the least significant, is slot n.
    pub fn from_byte(byte: u8) -> Slots
        ensures { result ≡ slots_in 8 0 byte }
    {
        Slots { byte }
    }

    /// How many slots there are.
    pub fn len(&self) -> usize
        ensures { result ≡ length self.now }
    {
        self.iter().count()
    }

    /// Whether there is no slot.
    pub fn is_empty(&self) -> bool
        ensures { IsTrue result ↔ (self.now ≡ []) }
    {
        self.byte == 0
    }

    /// Whether the slot is there.
    pub fn contains(&self, slot: u8) -> bool
        ensures { IsTrue result ↔ Contains self.now slot }
    {
        self.iter().any(|other| other == slot)
    }

    /// The slots, in rising order.
    pub fn iter(&self) -> SlotIter
        ensures slots { result ≡ self.now }
        ensures few { length result ≤ 8 }
    {
        SlotIter {
            byte: self.byte,
            slot: 0,
        }
    }
}

/// The slots of a set that are left, in rising order.
#[derive(Debug, Drop)]
pub struct SlotIter {
    byte: u8,
    slot: u8,
}

impl Model for SlotIter {
    ghost use Rattle.std.specs.Prelude.{List, ℕ, ◌-◌, ◌≤◌};
    ghost use Rattle.mqtt_topic.specs.Routes.{slots_in};

    ghost Value = { List ℕ };

    ghost view = { λ it. slots_in (8 - it.slot) it.slot it.byte };

    ghost invariant = { λ it. it.slot ≤ 8 };
}

impl Iterator for SlotIter {
    type Item = u8;

    ghost next_gives = { YieldsFirst (λ slots. slots) };

    ghost remaining = { item_count (λ slots. slots) };

    fn next(&mut self) -> Option<u8> {
        while self.slot < 8 {
            if self.byte == 0 {
                return None;
            }
            let slot = self.slot;
            let is_in = self.byte % 2 == 1;
            self.slot += 1;
            self.byte /= 2;
            if is_in {
                return Some(slot);
            }
        }
        None
    }
}
