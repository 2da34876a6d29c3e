//! Single steps on the maps of a desk's rows.
ghost use Rattle.std.specs.Prelude.{◌≡◌, ℕ, ◌<◌, ◌≤◌, cond, List, None, Some, IfOk, OnOk, nat_eq};
ghost use Rattle.std.specs.FinMap as map;
ghost use Rattle.std.specs.Cmp.Lexicographic.{pointwise};
ghost use Rattle.indexmap.specs.IndexMap.{spare};
ghost use Rattle.session_desk.specs.Rows.{HasRow, with_holder, with_wait, away};
ghost use Rattle.session_desk.specs.Layout.{seen, number_at};

use crate::row::{Holder, Row};
use bytes::Bytes;
use indexmap::IndexMap;
use std::alloc::AllocError;
use std::mem;

/// Three copies of an identifier: of the row, of the map of clients, and of the session.
#[derive(Drop)]
pub(crate) struct Copies {
    pub(crate) row: Bytes,
    pub(crate) key: Bytes,
    pub(crate) session: Bytes,
}

/// Copies of an identifier.
fn three_copies(client: &Bytes) -> Result<Copies, AllocError>
    ensures { IfOk result (λ copies.
        (copies.row ≡ client.now) × (copies.key ≡ client.now) × (copies.session ≡ client.now)) }
{
    Ok(Copies {
        row: client.clone()?,
        key: client.clone()?,
        session: client.clone()?,
    })
}

/// Makes room for one more row, and copies of its client's identifier.
pub(crate) fn prepare<E, P>(
    rows: &mut IndexMap<u64, Row<E, P>>,
    living: &mut IndexMap<Bytes, u64>,
    client: &Bytes,
) -> Result<Copies, AllocError>
    ensures rows { rows.new.entries ≡ rows.old.entries }
    ensures living { living.new.entries ≡ living.old.entries }
    ensures room { OnOk result ((0 < spare rows.new) × (0 < spare living.new)) }
    ensures copies { IfOk result (λ copies.
        (copies.row ≡ client.now) × (copies.key ≡ client.now) × (copies.session ≡ client.now)) }
{
    rows.reserve(1)?;
    living.reserve(1)?;
    three_copies(client)
}

/// Puts a session into other hands.
pub(crate) fn exchange<E, P>(
    rows: &mut IndexMap<u64, Row<E, P>>,
    number: u64,
    held_by: Holder<E, P>,
) -> Holder<E, P>
    requires { (row : Row E P) × HasRow (seen rows.old.entries) number row }
    ensures { (row : Row E P) → HasRow (seen rows.old.entries) number row →
        (result ≡ row.held_by)
        × (seen rows.new.entries ≡ map.insert (seen rows.old.entries) number (with_holder row held_by)) }
{
    match rows.get_mut(&number) {
        Some(row) => mem::replace(&mut row.held_by, held_by),
        None => unreachable!(),
    }
}

/// Lets a connection wait for a session.
pub(crate) fn claim<E, P>(rows: &mut IndexMap<u64, Row<E, P>>, number: u64, connection: u16)
    requires { (row : Row E P) × HasRow (seen rows.old.entries) number row }
    ensures { (row : Row E P) → HasRow (seen rows.old.entries) number row →
        seen rows.new.entries ≡ map.insert (seen rows.old.entries) number (with_wait row connection) }
{
    match rows.get_mut(&number) {
        Some(row) => row.wait = Some(connection),
        None => unreachable!(),
    }
}

/// Puts a session that is ending into a caller's hands. Nobody waits for it.
pub(crate) fn dismiss<E, P>(rows: &mut IndexMap<u64, Row<E, P>>, number: u64) -> Holder<E, P>
    requires { (row : Row E P) × HasRow (seen rows.old.entries) number row }
    ensures room { spare rows.new ≡ spare rows.old }
    ensures rows { (row : Row E P) → HasRow (seen rows.old.entries) number row →
        (result ≡ row.held_by)
        × (seen rows.new.entries ≡ map.insert (seen rows.old.entries) number (away row.client)) }
{
    match rows.get_mut(&number) {
        Some(row) => row.dismiss(),
        None => unreachable!(),
    }
}

/// Adds the row of a new session.
pub(crate) fn add<E, P>(rows: &mut IndexMap<u64, Row<E, P>>, number: u64, row: Row<E, P>)
    requires room { 0 < spare rows.old }
    requires new { map.get (seen rows.old.entries) number ≡ None }
    ensures { seen rows.new.entries ≡ map.insert (seen rows.old.entries) number row }
{
    match rows.insert(number, row) {
        Ok(None) => {}
        Ok(Some(_before)) => unreachable!(),
        Err(_refused) => unreachable!(),
    }
}

/// Takes the row of a buried session away.
pub(crate) fn remove<E, P>(rows: &mut IndexMap<u64, Row<E, P>>, number: u64)
    requires { (row : Row E P) × HasRow (seen rows.old.entries) number row × (row.held_by ≡ Holder.Away) }
    ensures { seen rows.new.entries ≡ map.remove (seen rows.old.entries) number }
{
    match rows.swap_remove(&number) {
        Some(row) => row.end(),
        None => unreachable!(),
    }
}

/// Lets a client's identifier lead to this session.
pub(crate) fn set_number(living: &mut IndexMap<Bytes, u64>, client: Bytes, number: u64)
    requires { 0 < spare living.old }
    ensures { (other : List ℕ) → number_at living.new.entries other
        ≡ cond (pointwise nat_eq client other) (Some number) (number_at living.old.entries other) }
{
    match living.insert(client, number) {
        Ok(_) => {}
        Err(_) => unreachable!(),
    }
}

/// Lets a client's identifier lead to no session.
pub(crate) fn forget(living: &mut IndexMap<Bytes, u64>, client: &Bytes)
    ensures { (other : List ℕ) → number_at living.new.entries other
        ≡ cond (pointwise nat_eq client.now other) None (number_at living.old.entries other) }
{
    let _ = living.swap_remove(client);
}

/// Lets the identifier in a row lead to no session.
pub(crate) fn forget_of<E, P>(
    rows: &IndexMap<u64, Row<E, P>>,
    living: &mut IndexMap<Bytes, u64>,
    number: u64,
)
    requires { (row : Row E P) × HasRow (seen rows.now.entries) number row }
    ensures { (row : Row E P) → HasRow (seen rows.now.entries) number row →
        (other : List ℕ) → number_at living.new.entries other
        ≡ cond (pointwise nat_eq row.client other) None (number_at living.old.entries other) }
{
    match rows.get(&number) {
        Some(row) => forget(living, &row.client),
        None => unreachable!(),
    }
}

/// Puts the session of a client that is lent or parked into a caller's hands: its client's identifier leads to none.
pub(crate) fn dismiss_living<E, P>(
    rows: &mut IndexMap<u64, Row<E, P>>,
    living: &mut IndexMap<Bytes, u64>,
    number: u64,
) -> Holder<E, P>
    requires { (row : Row E P) × HasRow (seen rows.old.entries) number row }
    ensures rows { (row : Row E P) → HasRow (seen rows.old.entries) number row →
        (result ≡ row.held_by)
        × (seen rows.new.entries ≡ map.insert (seen rows.old.entries) number (away row.client)) }
    ensures living { (row : Row E P) → HasRow (seen rows.old.entries) number row →
        (other : List ℕ) → number_at living.new.entries other
        ≡ cond (pointwise nat_eq row.client other) None (number_at living.old.entries other) }
{
    forget_of(rows, living, number);
    dismiss(rows, number)
}
