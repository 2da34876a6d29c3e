//! Where a text is cut.
ghost use Rattle.std.specs.Prelude.{◌≡◌, ◌==◌, ◌∷◌, ◌<◌, length, position, IfSome, MatchOption, None, Some};
ghost use Rattle.std.specs.Str.Lines.{strip_carriage_return};
ghost use Rattle.users.specs.Cuts.{begins_blank, cut, without_blanks};
ghost use Rattle.users.specs.Lines.{lines_of};

/// Where the first separator stands.
fn place_of(text: &[u8], separator: u8) -> Option<usize>
    ensures place { result ≡ position (λ byte. byte == separator) text.now }
    ensures within { IfSome result (λ at. at < length text.now) }
{
    text.iter().position(|byte| *byte == separator)
}

/// What stands in front of the first separator, and what behind it; `None` where there is none.
pub(crate) fn cut(text: &[u8], separator: u8) -> Option<(&[u8], &[u8])>
    ensures { MatchOption result (cut separator text.now ≡ None)
        (λ parts. cut separator text.now ≡ Some (parts.0.now, parts.1.now)) }
{
    match place_of(text, separator) {
        Some(at) => Some((&text[..at], &text[at + 1..])),
        None => None,
    }
}

/// The first line of a text that is not empty, without the line feed that ends it, and what is behind it.
pub(crate) fn split_line(text: &[u8]) -> (&[u8], &[u8])
    requires { 0 < length text.now }
    ensures lines { lines_of text.now ≡ result.0.now ∷ lines_of result.1.now }
    ensures fewer { length result.1.now < length text.now }
{
    match place_of(text, b'\n') {
        Some(end) => (&text[..end], &text[end + 1..]),
        None => (text, &[]),
    }
}

/// A line without the carriage return that may end it.
pub(crate) fn without_return(line: &[u8]) -> &[u8]
    ensures { result.now ≡ strip_carriage_return line.now }
{
    match line {
        [front @ .., b'\r'] => front,
        _ => line,
    }
}

/// Whether a text begins with a space or a tab.
pub(crate) fn begins_blank(text: &[u8]) -> bool
    ensures { result ≡ begins_blank text.now }
{
    matches!(text, [b' ' | b'\t', ..])
}

/// What follows the spaces and tabs in front.
pub(crate) fn without_blanks(text: &[u8]) -> &[u8]
    ensures { result.now ≡ without_blanks text.now }
{
    let mut rest = text;
    while let [b' ' | b'\t', others @ ..] = rest {
        rest = others;
    }
    rest
}
