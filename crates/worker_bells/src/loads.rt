//! What the members of a group have not acknowledged, and up to which level messages that wait would fill them. No contract speaks of it: workers tell it one
//! another as a hint, by which each finds its share.

/// How many messages a member has at most that it has not acknowledged.
const MOST_HELD: usize = 256;

const MOST_LEVEL: u16 = 256;

/// From this level on a worker may keep a message more for each of its own members, and one more for each further so many, but not more than the other number.
const SLACK: usize = 8;

const MOST_SLACK: usize = 16;

/// The members of a worker in a group that may be handed a message, as it tells the others.
#[derive(Clone, Copy, Debug, PartialEq, Eq)]
pub struct Load {
    /// How many of them there are.
    pub members: u16,
    /// How many messages each of them has not acknowledged, at least.
    pub least: u16,
    /// How many members have just that many.
    pub at_least: u16,
    /// How many the other members have on the average.
    pub rest: u16,
}

impl Load {
    /// That of no member.
    pub const NONE: Load = Load {
        members: 0,
        least: 0,
        at_least: 0,
        rest: 0,
    };

    /// How many of them are below a level, about.
    pub fn below(self, level: u16) -> u64 {
        let least = if level > self.least { self.at_least } else { 0 };
        let rest = if level > self.rest { self.others() } else { 0 };
        u64::from(least).saturating_add(u64::from(rest))
    }

    /// How many messages fill them up to a level, about.
    pub fn up_to(self, level: u16) -> u64 {
        let least = u64::from(level.saturating_sub(self.least));
        let rest = u64::from(level.saturating_sub(self.rest));
        let least = least.saturating_mul(u64::from(self.at_least));
        least.saturating_add(rest.saturating_mul(u64::from(self.others())))
    }

    /// How many have more than the least.
    fn others(self) -> u16 {
        self.members.saturating_sub(self.at_least)
    }
}

/// How many members of a worker have not acknowledged how many messages.
#[derive(Drop)]
pub struct HeldCounts {
    by_held: [u16; MOST_HELD + 1],
    // No member has so many or more.
    end: usize,
}

impl HeldCounts {
    /// Those of no member.
    pub const NONE: HeldCounts = HeldCounts {
        by_held: [0; MOST_HELD + 1],
        end: 0,
    };

    /// No member is counted any more.
    pub fn clear(&mut self) {
        for held in 0..self.end {
            if let Some(members) = self.by_held.get_mut(held) {
                *members = 0;
            }
        }
        self.end = 0;
    }

    /// A member more, which has not acknowledged so many.
    pub fn count(&mut self, held: u16) {
        let held = usize::from(held);
        if let Some(members) = self.by_held.get_mut(held) {
            *members = members.saturating_add(1);
            self.end = self.end.max(held.saturating_add(1));
        }
    }

    /// How many members have just so many.
    fn at(&self, held: usize) -> u64 {
        match self.by_held.get(held) {
            Some(members) => u64::from(*members),
            None => 0,
        }
    }

    /// The least that one of them has; 256 where there is none.
    fn least(&self) -> usize {
        for held in 0..self.end {
            if self.at(held) > 0 {
                return held;
            }
        }
        MOST_HELD
    }

    /// The next number above a level that one of them has; 257 where none has more.
    fn next_above(&self, level: u16) -> u16 {
        for held in usize::from(level).saturating_add(1)..self.end {
            if self.at(held) > 0 {
                return u16::try_from(held).unwrap_or(u16::MAX);
            }
        }
        MOST_LEVEL + 1
    }

    /// How many messages fill them up to a level.
    fn up_to(&self, level: usize) -> u64 {
        let mut filled = 0u64;
        for held in 0..self.end.min(level) {
            let lacks = level.saturating_sub(held) as u64;
            filled = filled.saturating_add(lacks.saturating_mul(self.at(held)));
        }
        filled
    }

    /// How many of them are below a level.
    fn below(&self, level: usize) -> u64 {
        let mut below = 0u64;
        for held in 0..self.end.min(level) {
            below = below.saturating_add(self.at(held));
        }
        below
    }
}

/// How far messages that wait fill the members of a group, those who have the fewest first.
#[derive(Clone, Copy, Debug, PartialEq, Eq)]
pub struct FillLevel {
    /// The highest number of messages that a member then has; 257 where not all messages find a member.
    pub level: u16,
    /// How many are left for members to have that many, where all have one less already.
    pub spare: u64,
}

impl FillLevel {
    /// How far so many messages fill the members of other workers, and a worker's own. It goes on from one number that members have to the next, and not by one.
    pub fn of(others: &[Load], own: &HeldCounts, count: u64) -> FillLevel {
        let mut level = least_of(others, own);
        let mut left = count;
        for _ in 0..MOST_HELD {
            if level > MOST_LEVEL {
                break;
            }
            let next = next_above(others, own, level);
            let members = below_in(others, next).saturating_add(own.below(usize::from(next)));
            let all = members.saturating_mul(u64::from(next.saturating_sub(level)));
            if all >= left {
                return FillLevel::above(level, members, left);
            }
            left -= all;
            level = next;
        }
        FillLevel { level, spare: left }
    }

    /// How far so many messages fill so many members, all of whom have the same number.
    fn above(held: u16, members: u64, count: u64) -> FillLevel {
        let full = if members == 0 {
            0
        } else {
            count.saturating_sub(1) / members
        };
        let level = u64::from(held).saturating_add(full).saturating_add(1);
        FillLevel {
            level: u16::try_from(level).unwrap_or(u16::MAX),
            spare: count.saturating_sub(full.saturating_mul(members)),
        }
    }

    /// How many of so many messages are a worker's share: its own members are filled up to one less, and of those that are left each of them gets one, after so
    /// many members of others.
    pub fn share(self, own: &HeldCounts, count: u64, earlier: u64) -> u64 {
        let level = usize::from(self.level);
        let filled = own.up_to(level.saturating_sub(1));
        let spare = self.spare.saturating_sub(earlier).min(own.below(level));
        filled.saturating_add(spare).min(count)
    }

    /// Whether a worker may keep so many messages though others have members with fewer: its own members come to an eighth above the level at most, and to 16. So
    /// at full speed not each message goes to another worker.
    pub fn keeps_all(self, own: &HeldCounts, count: u64) -> bool {
        let level = usize::from(self.level);
        let slack = (level / SLACK).min(MOST_SLACK);
        slack > 0 && own.up_to(level.saturating_add(slack)) >= count
    }
}

/// The next number above a level that a member of others or of the worker itself has; 257 where none has more.
fn next_above(others: &[Load], own: &HeldCounts, level: u16) -> u16 {
    let mut next = own.next_above(level);
    for load in others {
        if load.members > 0 && load.least > level {
            next = next.min(load.least);
        }
        if load.members > 0 && load.rest > level {
            next = next.min(load.rest);
        }
    }
    next
}

/// The least that a member of others or of the worker itself has.
fn least_of(others: &[Load], own: &HeldCounts) -> u16 {
    let mut least = u16::try_from(own.least()).unwrap_or(u16::MAX);
    for load in others {
        if load.members > 0 {
            least = least.min(load.least);
        }
    }
    least
}

/// How many members of others are below a level, about.
fn below_in(others: &[Load], level: u16) -> u64 {
    let mut below = 0u64;
    for load in others {
        below = below.saturating_add(load.below(level));
    }
    below
}

/// What a message counts in an average.
const MESSAGE: u32 = 1_024;

/// For how many messages the averages of two workers differ at most.
const MOST_LEAD: u32 = 4;

/// How many messages each member that a worker has in a group was handed on the average, in 1,024ths, counted from 0 again at 2^32.
///
/// Workers compare theirs where members of several have as few messages: so each is handed as many in the long run. What a worker is after is not made up for
/// without end, nor is what it is ahead: no two are more than four messages apart ([`Average::near`]).
#[derive(Clone, Copy, Debug, PartialEq, Eq)]
pub struct Average {
    /// In 1,024ths of a message.
    pub parts: u32,
}

impl Average {
    /// That of who was handed none.
    pub const NONE: Average = Average { parts: 0 };

    /// What it is once so many members were handed so many messages more.
    pub fn with(self, messages: u32, members: u16) -> Average {
        let parts = messages.saturating_mul(MESSAGE) / u32::from(members.max(1));
        Average {
            parts: self.parts.wrapping_add(parts),
        }
    }

    /// Whether it is more than another by more than so many messages.
    pub fn leads(self, other: Average, messages: u32) -> bool {
        let lead = self.parts.wrapping_sub(other.parts);
        lead > messages.saturating_mul(MESSAGE) && lead <= u32::MAX / 2
    }

    /// What of it counts beside that of another worker: four messages more or less at most.
    pub fn near(self, other: Average) -> Average {
        let parts = if self.leads(other, MOST_LEAD) {
            other.parts.wrapping_add(MOST_LEAD * MESSAGE)
        } else if other.leads(self, MOST_LEAD) {
            other.parts.wrapping_sub(MOST_LEAD * MESSAGE)
        } else {
            self.parts
        };
        Average { parts }
    }
}
