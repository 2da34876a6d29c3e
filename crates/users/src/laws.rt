//! A law of the lines that are made, as the contract of a function that does nothing.
ghost use Rattle.std.specs.Prelude.{◌≡◌, ◌++◌, ◌∷◌, [], bytes_eq, List, ℕ, Ok};
ghost use Rattle.users.specs.Hashing.{pbkdf2_sha512};
ghost use Rattle.users.specs.Laws.{MayBeMade, one_user};
ghost use Rattle.users.specs.Lines.{user_line, users_of};
ghost use Rattle.users.specs.Table.{admits};

/// **A line that is made is read as it was meant**: a file of that line and a line feed has the one user of that name (`read`), and admits under that name just the
/// passwords that have the hash of the line's (`admitted`), its own among them.
pub fn made_lines_are_read()
    ensures read { (name password salt : List ℕ) (iterations : ℕ) → MayBeMade name salt iterations
        → users_of (user_line name password salt iterations ++ 10 ∷ []) ≡ Ok (one_user name password salt iterations) }
    ensures admitted { (name password salt other : List ℕ) (iterations : ℕ)
        → admits (one_user name password salt iterations) name other
        ≡ bytes_eq (pbkdf2_sha512 other salt iterations) (pbkdf2_sha512 password salt iterations) }
{}
