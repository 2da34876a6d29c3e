//! A desk of which nothing is known but a rule of what it has, as of one that was taken out of a lock.
ghost use Rattle.std.specs.Prelude.{IfSome};
ghost use Rattle.session_desk.specs.Everywhere.{IsEverywhere};
ghost use Rattle.sessions_tests.specs.Rules.{HoldsFew, IsOneOfTwo};

use crate::spot::Spot;
use session_desk::laws::everywhere_law;
use session_desk::{Desk, Rule, Session};

/// Each session holds at most ten numbers, and each place is one of the two of the tests.
pub struct FewNumbers;

impl Rule<u32, Spot> for FewNumbers {
    ghost use Rattle.sessions_tests.specs.Rules.{HoldsFew, IsOneOfTwo, few_at_first};

    ghost holds = { HoldsFew };

    ghost fits = { IsOneOfTwo };

    ghost begins = { few_at_first };

    ghost timeless = { λ _ _ few. few };

    ghost frees = { λ _ few _. few.1 };
}

/// A session that is to be retired at this moment.
pub fn swept(desk: &mut Desk<u32, Spot>, now: u64) -> Option<Session<u32, Spot>>
    requires { IsEverywhere HoldsFew IsOneOfTwo desk.old }
    ensures onward { IsEverywhere HoldsFew IsOneOfTwo desk.new }
    ensures few { IfSome result HoldsFew }
{
    everywhere_law::<u32, Spot, FewNumbers>();
    desk.sweep(now)
}

/// A free place of the group with slot 3.
pub fn lent(desk: &mut Desk<u32, Spot>) -> Option<Spot>
    requires { IsEverywhere HoldsFew IsOneOfTwo desk.old }
    ensures onward { IsEverywhere HoldsFew IsOneOfTwo desk.new }
    ensures its { IfSome result IsOneOfTwo }
{
    everywhere_law::<u32, Spot, FewNumbers>();
    desk.lend_place(3)
}
