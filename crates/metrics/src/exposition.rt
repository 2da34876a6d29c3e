//! Prometheus' text format, version 0.0.4.
ghost use Rattle.std.specs.Prelude.{◌≡◌, ◌++◌, [], OnOk, flat_map};
ghost use Rattle.metrics.specs.Exposition.{escaped, escaped_byte, family_text, label_text, labels_text, one_more_label, sample_text, type_of};

use itoa::Buffer;
use std::alloc::AllocError;

/// What the numbers of a family are.
#[derive(Clone, Copy, Debug, PartialEq, Eq)]
pub enum Kind {
    /// They only grow, until the broker ends.
    Counter,
    /// They rise and fall.
    Gauge,
}

impl Kind {
    fn name(self) -> &'static str
        ensures { result.now ≡ type_of self }
    {
        match self {
            Kind::Counter => "counter",
            Kind::Gauge => "gauge",
        }
    }
}

/// A name and a value that tell a sample from others of its family.
#[derive(Clone, Copy)]
pub struct Label<'a> {
    pub name: &'static str,
    pub value: &'a [u8],
}

/// Begins a family, as `share_broker_jobs_queued`, with what it means, in a line without a backslash. Its samples follow.
///
/// # Errors
///
/// An allocation failed: a beginning was added.
pub fn add_family(text: &mut Vec<u8>, name: &str, help: &str, kind: Kind) -> Result<(), AllocError>
    ensures { OnOk result (text.new.items ≡ text.old.items ++ family_text name.now help.now kind) }
{
    text.extend_from_slice(b"# HELP ")?;
    text.extend_from_slice(name.as_bytes())?;
    text.extend_from_slice(b" ")?;
    text.extend_from_slice(help.as_bytes())?;
    text.extend_from_slice(b"\n# TYPE ")?;
    text.extend_from_slice(name.as_bytes())?;
    text.extend_from_slice(b" ")?;
    text.extend_from_slice(kind.name().as_bytes())?;
    text.extend_from_slice(b"\n")
}

/// Adds a sample to its family.
///
/// # Errors
///
/// An allocation failed: a beginning was added.
pub fn add_sample(
    text: &mut Vec<u8>,
    name: &str,
    labels: &[Label<'_>],
    number: u64,
) -> Result<(), AllocError>
    ensures { OnOk result (text.new.items ≡ text.old.items ++ sample_text name.now labels.now number) }
{
    let mut digits = Buffer::new();
    text.extend_from_slice(name.as_bytes())?;
    add_labels(text, labels)?;
    text.extend_from_slice(b" ")?;
    text.extend_from_slice(digits.format(number).as_bytes())?;
    text.extend_from_slice(b"\n")
}

/// Adds a family of one number.
///
/// # Errors
///
/// An allocation failed: a beginning was added.
pub(crate) fn add_number(
    text: &mut Vec<u8>,
    name: &str,
    help: &str,
    kind: Kind,
    number: u64,
) -> Result<(), AllocError>
    ensures { OnOk result (text.new.items ≡ (text.old.items ++ family_text name.now help.now kind) ++ sample_text name.now [] number) }
{
    add_family(text, name, help, kind)?;
    add_sample(text, name, &[], number)
}

/// Adds labels in braces, if there are any.
fn add_labels(text: &mut Vec<u8>, labels: &[Label<'_>]) -> Result<(), AllocError>
    ensures { OnOk result (text.new.items ≡ text.old.items ++ labels_text labels.now) }
{
    let Some((first, others)) = labels.split_first() else {
        return Ok(());
    };
    text.extend_from_slice(b"{")?;
    add_label(text, first)?;
    add_more_labels(text, others)?;
    text.extend_from_slice(b"}")
}

/// Adds labels, each after a comma.
fn add_more_labels(text: &mut Vec<u8>, labels: &[Label<'_>]) -> Result<(), AllocError>
    ensures { OnOk result (text.new.items ≡ text.old.items ++ flat_map one_more_label labels.now) }
{
    for label in labels {
        text.extend_from_slice(b",")?;
        add_label(text, label)?;
    }
    Ok(())
}

/// Adds a label.
fn add_label(text: &mut Vec<u8>, label: &Label<'_>) -> Result<(), AllocError>
    ensures { OnOk result (text.new.items ≡ text.old.items ++ label_text label.now) }
{
    text.extend_from_slice(label.name.as_bytes())?;
    text.extend_from_slice(b"=\"")?;
    add_escaped(text, label.value)?;
    text.extend_from_slice(b"\"")
}

/// Adds the value of a label.
fn add_escaped(text: &mut Vec<u8>, value: &[u8]) -> Result<(), AllocError>
    ensures { OnOk result (text.new.items ≡ text.old.items ++ escaped value.now) }
{
    for byte in value {
        add_byte(text, *byte)?;
    }
    Ok(())
}

/// Adds a byte of the value of a label.
fn add_byte(text: &mut Vec<u8>, byte: u8) -> Result<(), AllocError>
    ensures { OnOk result (text.new.items ≡ text.old.items ++ escaped_byte byte) }
{
    match byte {
        b'\\' => text.extend_from_slice(b"\\\\"),
        b'"' => text.extend_from_slice(b"\\\""),
        b'\n' => text.extend_from_slice(b"\\n"),
        _ => Ok(text.push(byte)?),
    }
}
