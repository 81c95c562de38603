//! The text format of Prometheus, 0.0.4.

ghost use Rattle.std.specs.Prelude.{◌≡◌, ◌++◌, ◌∷◌, ◌/◌, ◌<◌, [], map, OnOk, decimal};
ghost use Rattle.std.specs.List.{flat_map};
ghost use Rattle.kb_metrics.specs.Text.{behind_text, digit, end_text, escape, escaped, figure_of};
ghost use Rattle.kb_metrics.specs.Text.{figure_text, front_text, head_seen, head_text, is_plain, kind_text};
ghost use Rattle.kb_metrics.specs.Text.{label_of, label_text, more_text, rows_text, sample_text, value_text};

use crate::row::{Row, push_rows};
use itoa::{Buffer, Integer};
use std::alloc::AllocError;

/// What a family counts.
#[derive(Clone, Copy, Debug, PartialEq, Eq)]
pub enum Kind {
    /// A number that only rises while the process runs.
    Counter,
    /// A number that may rise and fall.
    Gauge,
}

impl Kind {
    fn text(self) -> &'static str
        ensures { result.now ≡ kind_text self }
    {
        match self {
            Kind::Counter => "counter",
            Kind::Gauge => "gauge",
        }
    }
}

/// What stands in front of the samples of a family.
#[derive(Clone, Copy)]
pub struct Head {
    pub name: &'static str,
    /// What it counts in words, on one line and without a backslash.
    pub help: &'static str,
    pub kind: Kind,
}

/// A label of a sample.
#[derive(Clone, Copy)]
pub struct Label<'a> {
    /// Its name, of the characters `a-z _`.
    pub name: &'a str,
    /// Its value, which may be any text.
    pub value: &'a [u8],
}

/// A number, as it is printed.
#[derive(Clone, Copy, Debug, PartialEq, Eq)]
pub enum Value {
    Whole(u64),
    /// So many thousandths, printed with three digits behind the point.
    Thousandths(u64),
    /// So many millionths, printed with six digits behind the point.
    Millionths(u64),
}

/// A family of one sample without labels.
#[derive(Clone, Copy)]
pub struct Figure {
    pub name: &'static str,
    /// What it counts in words, on one line and without a backslash.
    pub help: &'static str,
    pub kind: Kind,
    /// None where it is not known: then the family is left out.
    pub value: Option<Value>,
}

/// Writes what stands in front of the samples of a family.
///
/// Each of these functions puts its text behind what is there. After an `Err`, which is want of memory, some of it may be there.
pub(crate) fn push_head(out: &mut Vec<u8>, head: Head) -> Result<(), AllocError>
    ensures { OnOk result (out.new.items ≡ out.old.items ++ head_text (head_seen head)) }
{
    out.extend_from_slice(b"# HELP ")?;
    out.extend_from_slice(head.name.as_bytes())?;
    out.push(b' ')?;
    out.extend_from_slice(head.help.as_bytes())?;
    out.extend_from_slice(b"\n# TYPE ")?;
    out.extend_from_slice(head.name.as_bytes())?;
    out.push(b' ')?;
    out.extend_from_slice(head.kind.text().as_bytes())?;
    out.push(b'\n')?;
    Ok(())
}

/// Writes a family: its head, and its rows.
pub(crate) fn push_family<P: Copy, R: Row<P>>(
    out: &mut Vec<u8>,
    head: Head,
    place: P,
    rows: &[R],
) -> Result<(), AllocError>
    ensures { OnOk result (out.new.items ≡ out.old.items ++ rows_text (head_seen head) (R.text place) (map R.seen rows.now)) }
{
    push_head(out, head)?;
    push_rows(out, place, rows)
}

/// Writes families of one sample each, those that are known.
pub fn push_figures(out: &mut Vec<u8>, figures: &[Figure]) -> Result<(), AllocError>
    ensures { OnOk result (out.new.items ≡ out.old.items ++ flat_map figure_text (map figure_of figures.now)) }
{
    push_rows(out, (), figures)
}

/// A family of one sample, where it is known.
impl Row<()> for Figure {
    ghost use Rattle.kb_metrics.specs.Text.{FigureText, figure_of, figure_text};

    ghost Seen = { FigureText };

    ghost seen = { figure_of };

    ghost text = { λ place. figure_text };

    fn push(&self, out: &mut Vec<u8>, _place: ()) -> Result<(), AllocError> {
        match self.value {
            None => Ok(()),
            Some(value) => push_known(out, self.head(), value),
        }
    }
}

impl Figure {
    fn head(&self) -> Head
        ensures { head_seen result ≡ (figure_of self.now).head }
    {
        Head {
            name: self.name,
            help: self.help,
            kind: self.kind,
        }
    }
}

/// Writes a family of one sample.
fn push_known(out: &mut Vec<u8>, head: Head, value: Value) -> Result<(), AllocError>
    ensures { OnOk result (out.new.items
        ≡ out.old.items ++ head_text (head_seen head) ++ head.name.now ++ end_text (value_text value)) }
{
    push_head(out, head)?;
    out.extend_from_slice(head.name.as_bytes())?;
    out.push(b' ')?;
    push_value(out, value)?;
    out.push(b'\n')?;
    Ok(())
}

/// Writes a number.
pub(crate) fn push_value(out: &mut Vec<u8>, value: Value) -> Result<(), AllocError>
    ensures { OnOk result (out.new.items ≡ out.old.items ++ value_text value) }
{
    match value {
        Value::Whole(count) => push_number(out, count),
        Value::Thousandths(count) => push_thousandths(out, count),
        Value::Millionths(count) => push_millionths(out, count),
    }
}

fn push_thousandths(out: &mut Vec<u8>, count: u64) -> Result<(), AllocError>
    ensures { OnOk result (out.new.items
        ≡ out.old.items ++ decimal (count / 1000) ++ 46 ∷ digit count 100 ∷ digit count 10 ∷ digit count 1 ∷ []) }
{
    push_number(out, count / 1000)?;
    out.push(b'.')?;
    push_digits(out, count)
}

fn push_millionths(out: &mut Vec<u8>, count: u64) -> Result<(), AllocError>
    ensures { OnOk result (out.new.items ≡ out.old.items ++ decimal (count / 1000000)
        ++ 46 ∷ digit count 100000 ∷ digit count 10000 ∷ digit count 1000 ∷ digit count 100 ∷ digit count 10 ∷ digit count 1 ∷ []) }
{
    push_number(out, count / 1_000_000)?;
    out.push(b'.')?;
    push_digit(out, count, 100_000)?;
    push_digit(out, count, 10_000)?;
    push_digit(out, count, 1_000)?;
    push_digits(out, count)
}

/// Writes the last three digits of a number.
fn push_digits(out: &mut Vec<u8>, count: u64) -> Result<(), AllocError>
    ensures { OnOk result (out.new.items ≡ out.old.items ++ digit count 100 ∷ digit count 10 ∷ digit count 1 ∷ []) }
{
    push_digit(out, count, 100)?;
    push_digit(out, count, 10)?;
    push_digit(out, count, 1)
}

/// Writes the digit of a number that counts so many.
fn push_digit(out: &mut Vec<u8>, count: u64, unit: u64) -> Result<(), AllocError>
    requires { 0 < unit }
    ensures { OnOk result (out.new.items ≡ out.old.items ++ digit count unit ∷ []) }
{
    let digit = count / unit % 10;
    out.push(b'0' + digit as u8)?;
    Ok(())
}

/// Writes a whole number.
pub fn push_number<I: Integer>(out: &mut Vec<u8>, value: I) -> Result<(), AllocError>
    ensures { OnOk result (out.new.items ≡ out.old.items ++ I.text value) }
{
    let mut buffer = Buffer::new();
    out.extend_from_slice(buffer.format(value).as_bytes())
}

/// Writes a sample with a label, and more of them behind it.
pub fn push_sample(
    out: &mut Vec<u8>,
    name: &str,
    first: Label<'_>,
    more: &[Label<'_>],
    value: u64,
) -> Result<(), AllocError>
    ensures { OnOk result (out.new.items ≡ out.old.items ++ sample_text name.now (label_of first.entry) (map label_of more.now) value) }
{
    push_front(out, name, first)?;
    push_more(out, more)?;
    push_number(out, value)?;
    out.push(b'\n')?;
    Ok(())
}

/// Writes what stands in front of samples: a name, and the first label.
pub(crate) fn push_front(out: &mut Vec<u8>, name: &str, first: Label<'_>) -> Result<(), AllocError>
    ensures { OnOk result (out.new.items ≡ out.old.items ++ front_text name.now (label_of first.entry)) }
{
    out.extend_from_slice(name.as_bytes())?;
    out.push(b'{')?;
    push_label(out, first)
}

/// Writes a sample behind its front.
pub(crate) fn push_behind<I: Integer>(
    out: &mut Vec<u8>,
    front: &[u8],
    more: &[Label<'_>],
    value: I,
) -> Result<(), AllocError>
    ensures { OnOk result (out.new.items ≡ out.old.items ++ behind_text front.now (map label_of more.now) (I.text value)) }
{
    out.extend_from_slice(front)?;
    push_more(out, more)?;
    push_number(out, value)?;
    out.push(b'\n')?;
    Ok(())
}

/// Writes labels, each behind a comma, and the brace behind them.
fn push_more(out: &mut Vec<u8>, labels: &[Label<'_>]) -> Result<(), AllocError>
    ensures { OnOk result (out.new.items ≡ out.old.items ++ flat_map more_text (map label_of labels.now) ++ 125 ∷ 32 ∷ []) }
{
    push_rows(out, (), labels)?;
    out.extend_from_slice(b"} ")
}

/// A label behind a comma.
impl<'a> Row<()> for Label<'a> {
    ghost use Rattle.std.specs.Prelude.{List, ℕ};
    ghost use Rattle.kb_metrics.specs.Text.{label_of, more_text};

    ghost Seen = { List ℕ × List ℕ };

    ghost seen = { label_of };

    ghost text = { λ place. more_text };

    fn push(&self, out: &mut Vec<u8>, _place: ()) -> Result<(), AllocError> {
        out.push(b',')?;
        push_label(out, *self)
    }
}

/// Writes a label.
fn push_label(out: &mut Vec<u8>, label: Label<'_>) -> Result<(), AllocError>
    ensures { OnOk result (out.new.items ≡ out.old.items ++ label_text (label_of label.entry)) }
{
    out.extend_from_slice(label.name.as_bytes())?;
    out.extend_from_slice(b"=\"")?;
    push_escaped(out, label.value)?;
    out.push(b'"')?;
    Ok(())
}

/// Writes a label's value, at once where none of its bytes stands behind a backslash.
#[tactic(auto, using(crate::proofs::Plain::plain_escaped))]
fn push_escaped(out: &mut Vec<u8>, value: &[u8]) -> Result<(), AllocError>
    ensures { OnOk result (out.new.items ≡ out.old.items ++ escaped value.now) }
{
    if is_plain(value) {
        out.extend_from_slice(value)
    } else {
        push_escapes(out, value)
    }
}

/// Whether each byte of a label's value stands for itself.
fn is_plain(value: &[u8]) -> bool
    ensures { result ≡ is_plain value.now }
{
    value
        .iter()
        .all(|byte| !matches!(*byte, b'\\' | b'"' | b'\n'))
}

/// Writes a label's value, byte by byte.
fn push_escapes(out: &mut Vec<u8>, value: &[u8]) -> Result<(), AllocError>
    ensures { OnOk result (out.new.items ≡ out.old.items ++ escaped value.now) }
{
    for byte in value {
        push_escape(out, *byte)?;
    }
    Ok(())
}

/// Writes a byte of a label's value.
fn push_escape(out: &mut Vec<u8>, byte: u8) -> Result<(), AllocError>
    ensures { OnOk result (out.new.items ≡ out.old.items ++ escape byte) }
{
    if byte == b'\\' {
        out.extend_from_slice(b"\\\\")?;
    } else if byte == b'"' {
        out.extend_from_slice(b"\\\"")?;
    } else if byte == b'\n' {
        out.extend_from_slice(b"\\n")?;
    } else {
        out.push(byte)?;
    }
    Ok(())
}
