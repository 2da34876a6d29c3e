//! The line of a user.
ghost use Rattle.std.specs.Prelude.{◌≡◌, ◌⊎◌, ℕ, Ok, Err, IfErr, IfOk, IfSome, None, OnOk, string_bytes};
ghost use Rattle.std.specs.Io.KnownBytes.{Keeps};
ghost use Rattle.text_io.specs.Status.{IsOfWriting};
ghost use Rattle.text_io.specs.declared.error.DeviceFault.{DeviceFault};
ghost use Rattle.text_io.specs.declared.error.RunError.TheVariants.{Memory, NoRandomBytes};
ghost use Rattle.drive.specs.Transcripts.{BeginsTo, Writes};
ghost use Rattle.program.specs.Hashing.{IsUserLine, IsUserOutput, password_in};

use arguments::PasswordOptions;
use std::alloc::Global;
use std::io::{Read, Write};
use std::random::RandomSource;
use text_io::{RunError, read_all, split_line, write_all};
use users::user_line;

/// How many bytes a salt has.
const SALT: usize = 12;

/// Writes the line of a user, whose password is the first line of the input, with a salt of random bytes.
pub(crate) fn hash_password<H: RandomSource, R: Read, W: Write>(
    rt: &H,
    alloc: Global,
    options: &PasswordOptions,
    reader: &mut R,
    writer: &mut W,
) -> Result<(), RunError>
    // What was written is the line of the user and its password, and nothing else.
    ensures ended { OnOk result (IfSome (R.remaining reader.old)
        (λ input. Writes (IsUserOutput options.now input) (W.contents writer.old) (W.contents writer.new))) }
    // A line that is named is the first, in which no password is.
    ensures bad_line { (line : ℕ) → result ≡ Err (RunError.Line line) → IfSome (R.remaining reader.old)
        (λ input. password_in input ≡ Err line) }
    // Where the writer failed, what was written begins that; at each other error nothing was written.
    ensures begun { (fault : DeviceFault) → result ≡ Err (RunError.WriteFailed fault) → IfSome (R.remaining reader.old)
        (λ input. BeginsTo (IsUserOutput options.now input) (W.contents writer.old) (W.contents writer.new)) }
    ensures kept { IfErr result (λ error. ¬ IsOfWriting error → Keeps (W.contents writer.old) (W.contents writer.new)) }
{
    let input = read_all(alloc, reader)?;
    let Some(password) = password_in(&input) else {
        return Err(RunError::Line(1));
    };
    let line = line_of(rt, alloc, options, password)?;
    write_all(writer, line.as_bytes())
}

/// The password in an input: its first line, where that is not empty.
fn password_in(input: &[u8]) -> Option<&[u8]>
    ensures some { IfSome result (λ password. password_in input.now ≡ Ok password.now) }
    ensures none { result ≡ None → password_in input.now ≡ Err 1 }
{
    if input.is_empty() {
        return None;
    }
    let (line, _others) = split_line(input);
    if line.is_empty() { None } else { Some(line) }
}

/// The line of a user with this password and its end.
fn line_of<H: RandomSource>(
    rt: &H,
    alloc: Global,
    options: &PasswordOptions,
    password: &[u8],
) -> Result<String, RunError>
    ensures ok { IfOk result (λ line. IsUserLine options.now password.now (string_bytes line)) }
    ensures err { IfErr result (λ error. (error ≡ Memory) ⊎ (error ≡ NoRandomBytes)) }
{
    let mut salt = [0; SALT];
    if rt.fill_bytes(&mut salt).is_err() {
        return Err(RunError::NoRandomBytes);
    }
    let mut line = user_line(
        alloc,
        options.name.as_str(),
        password,
        &salt,
        options.iterations,
    )?;
    line.push('\n')?;
    Ok(line)
}
