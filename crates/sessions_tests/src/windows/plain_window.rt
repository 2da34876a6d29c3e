//! The window as a plain list with no row of free identifiers, which the window is compared with.
use std::alloc::{AllocError, Global};
use std::collections::VecDeque;

/// How many items it keeps.
const CAPACITY: usize = 256;

/// What is held, in order of first sending, each item under its identifier.
#[derive(Drop)]
pub struct PlainWindow {
    entries: VecDeque<(u16, u32)>,
    owed: usize,
    quota: Option<usize>,
}

impl PlainWindow {
    pub fn new(alloc: Global) -> Result<PlainWindow, AllocError> {
        Ok(PlainWindow {
            entries: VecDeque::with_capacity(alloc, CAPACITY)?,
            owed: 0,
            quota: None,
        })
    }

    pub fn up(&mut self, receive_maximum: u16) {
        self.quota = Some(usize::from(receive_maximum).min(CAPACITY));
        self.owed = 0;
    }

    pub fn down(&mut self) {
        self.quota = None;
        self.owed = 0;
    }

    fn has_quota(&self) -> bool {
        let owed = self.owed;
        self.quota.is_some_and(|quota| owed < quota)
    }

    fn least_free(&self) -> u16 {
        for identifier in 1..257u16 {
            if self.place_of(identifier).is_none() {
                return identifier;
            }
        }
        0
    }

    fn place_of(&self, identifier: u16) -> Option<usize> {
        self.entries.iter().position(|entry| entry.0 == identifier)
    }

    pub fn put(&mut self, item: u32) -> Result<u16, u32> {
        if !self.has_quota() || self.owed != self.entries.len() {
            return Err(item);
        }
        let identifier = self.least_free();
        if self.entries.push_back((identifier, item)).is_err() {
            return Err(item);
        }
        self.owed = self.entries.len();
        Ok(identifier)
    }

    pub fn next_resend(&mut self) -> Option<(u16, u32)> {
        if !self.has_quota() {
            return None;
        }
        let entry = *self.entries.get(self.owed)?;
        self.owed = self.owed.saturating_add(1);
        Some(entry)
    }

    pub fn ack(&mut self, identifier: u16) -> Option<u32> {
        let place = self.place_of(identifier)?;
        if place < self.owed {
            self.owed = self.owed.saturating_sub(1);
        }
        let (_, item) = self.entries.remove(place)?;
        Some(item)
    }

    pub fn take_first(&mut self) -> Option<(u16, u32)> {
        self.entries.pop_front()
    }

    pub fn restore(&mut self, identifier: u16, item: u32) -> Result<(), AllocError> {
        self.entries
            .push_front((identifier, item))
            .map_err(|_| AllocError)
    }

    pub fn len(&self) -> usize {
        self.entries.len()
    }

    pub fn get(&self, place: usize) -> Option<(u16, u32)> {
        self.entries.get(place).copied()
    }
}
