//! What becomes of clients and their sessions where memory is refused in a call of the supply: over a broker on one thread that refuses the
//! calls that it is told to.

mod acting;
mod refusals;
mod refusing;
