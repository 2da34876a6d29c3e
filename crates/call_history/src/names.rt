//! What contracts name by a type: which history it is, and what is added to it.
ghost use Rattle.std.specs.Prelude.{List};
ghost use Rattle.atomic_table.specs.Seated.{TableId};

use std::marker::Brand;

/// Which history it is. What has this name in its type belongs to this history, wherever it lies: behind a lock, or with a thread.
pub trait HistoryName {
    ghost use Rattle.atomic_table.specs.Seated.{TableId};

    /// Its table.
    ghost history: { TableId };
}

/// A history is named at a call: a function over every name is called at `Brand`, and the proof of the call says which history it is called with.
impl HistoryName for Brand {
    ghost use Rattle.call_history.specs.Tables.{no_table};

    ghost history = { no_table };
}

/// What is added to a history. The proof of a call at `Brand` says what it is.
pub trait Entries<E> {
    ghost use Rattle.std.specs.Prelude.{List};

    /// What is added, in its order.
    ghost added: { List E };
}

impl<E> Entries<E> for Brand {
    ghost use Rattle.std.specs.Prelude.{[]};

    ghost added = { [] };
}
