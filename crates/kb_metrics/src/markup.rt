//! HTML: how names and numbers stand on a page.

ghost use Rattle.std.specs.Prelude.{◌≡◌, ◌++◌, ◌<◌, map, length, decimal, OnOk};
ghost use Rattle.std.specs.List.{flat_map, range_with_len};
ghost use Rattle.kb_metrics.specs.Markup.{cell, cell_of, cell_or, cell_start, entity, fact_of, fact_text};
ghost use Rattle.kb_metrics.specs.Markup.{greatest, hex_digit, is_bare, is_unreserved, known_line, line_text};
ghost use Rattle.kb_metrics.specs.Markup.{link_cell, marked, name_cell, newest, number_or, plot_cell};
ghost use Rattle.kb_metrics.specs.Markup.{point_text, points_text, query, query_byte, sample_at, signed_cell};
ghost use Rattle.kb_metrics.specs.Markup.{tag_text};
ghost use Rattle.kb_metrics.specs.Text.{value_text};

use crate::row::{Row, push_rows};
use crate::text::{Value, push_number, push_value};
use std::alloc::AllocError;

/// A tag, with all that stands in it beside names and numbers.
#[derive(Clone, Copy, Debug, PartialEq, Eq)]
pub(crate) enum Tag {
    Row,
    RowEnd,
    Cell,
    Quote,
    CellEnd,
    Link,
    LinkEnd,
    Plot,
    PlotEnd,
    Line,
    LineMiddle,
    LineEnd,
}

impl Tag {
    #[tactic(auto, unfolding(crate::specs::Markup::tag_text))]
    fn text(self) -> &'static str
        ensures { result.now ≡ tag_text self }
    {
        match self {
            Tag::Row => "<tr>",
            Tag::RowEnd => "</tr>\n",
            Tag::Cell => "<td data-l=\"",
            Tag::Quote => "\">",
            Tag::CellEnd => "</td>",
            Tag::Link => "<a href=\"/?tenant=",
            Tag::LinkEnd => "</a></td>",
            Tag::Plot => "<svg viewBox=\"0 0 119 25\"><polyline points=\"",
            Tag::PlotEnd => "\"/></svg> ",
            Tag::Line => "<tr><th>",
            Tag::LineMiddle => "</th><td>",
            Tag::LineEnd => "</td></tr>\n",
        }
    }
}

/// A number in a table, with what it says in words.
#[derive(Clone, Copy)]
pub(crate) struct Cell {
    pub(crate) label: &'static str,
    pub(crate) value: u64,
}

/// A line with what it says in words; none where it is not known.
#[derive(Clone, Copy)]
pub(crate) struct Fact {
    pub(crate) label: &'static str,
    pub(crate) value: Option<Value>,
}

/// Writes a tag.
pub(crate) fn push_tag(out: &mut Vec<u8>, tag: Tag) -> Result<(), AllocError>
    ensures { OnOk result (out.new.items ≡ out.old.items ++ tag_text tag) }
{
    out.extend_from_slice(tag.text().as_bytes())
}

/// Writes a name, at once where none of its bytes is an entity.
#[tactic(auto, using(crate::proofs::Plain::bare_marked))]
pub(crate) fn push_marked(out: &mut Vec<u8>, name: &[u8]) -> Result<(), AllocError>
    ensures { OnOk result (out.new.items ≡ out.old.items ++ marked name.now) }
{
    if is_bare(name) {
        out.extend_from_slice(name)
    } else {
        push_entities(out, name)
    }
}

/// Whether each byte of a name stands for itself.
fn is_bare(name: &[u8]) -> bool
    ensures { result ≡ is_bare name.now }
{
    name.iter()
        .all(|byte| !matches!(*byte, b'&' | b'<' | b'>' | b'"' | b'\''))
}

/// Writes a name, byte by byte.
fn push_entities(out: &mut Vec<u8>, name: &[u8]) -> Result<(), AllocError>
    ensures { OnOk result (out.new.items ≡ out.old.items ++ marked name.now) }
{
    for byte in name {
        push_entity(out, *byte)?;
    }
    Ok(())
}

/// Writes a byte of a name.
fn push_entity(out: &mut Vec<u8>, byte: u8) -> Result<(), AllocError>
    ensures { OnOk result (out.new.items ≡ out.old.items ++ entity byte) }
{
    match byte {
        b'&' => out.extend_from_slice(b"&amp;"),
        b'<' => out.extend_from_slice(b"&lt;"),
        b'>' => out.extend_from_slice(b"&gt;"),
        b'"' => out.extend_from_slice(b"&quot;"),
        b'\'' => out.extend_from_slice(b"&#39;"),
        _ => out.extend_from_slice(&[byte]),
    }
}

/// Writes a name as the value of a query.
fn push_query(out: &mut Vec<u8>, name: &[u8]) -> Result<(), AllocError>
    ensures { OnOk result (out.new.items ≡ out.old.items ++ query name.now) }
{
    for byte in name {
        push_query_byte(out, *byte)?;
    }
    Ok(())
}

fn push_query_byte(out: &mut Vec<u8>, byte: u8) -> Result<(), AllocError>
    ensures { OnOk result (out.new.items ≡ out.old.items ++ query_byte byte) }
{
    if is_unreserved(byte) {
        out.extend_from_slice(&[byte])
    } else {
        out.extend_from_slice(&[b'%', hex_digit(byte / 16), hex_digit(byte % 16)])
    }
}

fn is_unreserved(byte: u8) -> bool
    ensures { result ≡ is_unreserved byte }
{
    matches!(byte, b'0'..=b'9' | b'A'..=b'Z' | b'a'..=b'z' | b'-' | b'.' | b'_' | b'~')
}

fn hex_digit(digit: u8) -> u8
    requires { digit < 16 }
    ensures { result ≡ hex_digit digit }
{
    if digit < 10 {
        b'0' + digit
    } else {
        b'A' + digit - 10
    }
}

#[tactic(auto, unfolding(crate::specs::Markup::cell_start))]
fn push_cell_start(out: &mut Vec<u8>, label: &str) -> Result<(), AllocError>
    ensures { OnOk result (out.new.items ≡ out.old.items ++ cell_start label.now) }
{
    push_tag(out, Tag::Cell)?;
    out.extend_from_slice(label.as_bytes())?;
    push_tag(out, Tag::Quote)
}

/// Writes a cell with a name.
#[tactic(auto, unfolding(crate::specs::Markup::name_cell))]
pub(crate) fn push_name_cell(out: &mut Vec<u8>, label: &str, name: &[u8]) -> Result<(), AllocError>
    ensures { OnOk result (out.new.items ≡ out.old.items ++ name_cell label.now name.now) }
{
    push_cell_start(out, label)?;
    push_marked(out, name)?;
    push_tag(out, Tag::CellEnd)
}

/// Writes a cell with the name of a tenant, which leads to its page.
#[tactic(auto, unfolding(crate::specs::Markup::link_cell))]
pub(crate) fn push_link_cell(out: &mut Vec<u8>, label: &str, name: &str) -> Result<(), AllocError>
    ensures { OnOk result (out.new.items ≡ out.old.items ++ link_cell label.now name.now) }
{
    push_cell_start(out, label)?;
    push_tag(out, Tag::Link)?;
    push_query(out, name.as_bytes())?;
    push_tag(out, Tag::Quote)?;
    push_marked(out, name.as_bytes())?;
    push_tag(out, Tag::LinkEnd)
}

/// Writes a cell with a number.
#[tactic(auto, unfolding(crate::specs::Markup::cell))]
pub(crate) fn push_cell(out: &mut Vec<u8>, label: &str, value: u64) -> Result<(), AllocError>
    ensures { OnOk result (out.new.items ≡ out.old.items ++ cell (label.now, value)) }
{
    push_cell_start(out, label)?;
    push_number(out, value)?;
    push_tag(out, Tag::CellEnd)
}

/// Writes a cell with a number, or with words where there is none.
#[tactic(auto, unfolding(crate::specs::Markup::cell_or))]
pub(crate) fn push_cell_or(
    out: &mut Vec<u8>,
    label: &str,
    words: &str,
    value: Option<u64>,
) -> Result<(), AllocError>
    ensures { OnOk result (out.new.items ≡ out.old.items ++ cell_or label.now words.now value) }
{
    push_cell_start(out, label)?;
    push_number_or(out, words, value)?;
    push_tag(out, Tag::CellEnd)
}

fn push_number_or(out: &mut Vec<u8>, words: &str, value: Option<u64>) -> Result<(), AllocError>
    ensures { OnOk result (out.new.items ≡ out.old.items ++ number_or words.now value) }
{
    match value {
        Some(value) => push_number(out, value),
        None => out.extend_from_slice(words.as_bytes()),
    }
}

/// Writes a cell with a number that may be below 0.
#[tactic(auto, unfolding(crate::specs::Markup::signed_cell))]
pub(crate) fn push_signed_cell(out: &mut Vec<u8>, label: &str, value: i64) -> Result<(), AllocError>
    ensures { OnOk result (out.new.items ≡ out.old.items ++ signed_cell label.now value) }
{
    push_cell_start(out, label)?;
    push_number(out, value)?;
    push_tag(out, Tag::CellEnd)
}

/// Writes cells with numbers.
pub(crate) fn push_cells(out: &mut Vec<u8>, cells: &[Cell]) -> Result<(), AllocError>
    ensures { OnOk result (out.new.items ≡ out.old.items ++ flat_map cell (map cell_of cells.now)) }
{
    push_rows(out, (), cells)
}

impl Row<()> for Cell {
    ghost use Rattle.std.specs.Prelude.{List, ℕ};

    ghost Seen = { List ℕ × ℕ };

    ghost seen = { cell_of };

    ghost text = { λ place. cell };

    fn push(&self, out: &mut Vec<u8>, _place: ()) -> Result<(), AllocError> {
        push_cell(out, self.label, self.value)
    }
}

/// Writes lines, those that are known.
pub(crate) fn push_facts(out: &mut Vec<u8>, facts: &[Fact]) -> Result<(), AllocError>
    ensures { OnOk result (out.new.items ≡ out.old.items ++ flat_map fact_text (map fact_of facts.now)) }
{
    push_rows(out, (), facts)
}

impl Row<()> for Fact {
    ghost use Rattle.std.specs.Prelude.{List, Option, ℕ};
    ghost use Rattle.kb_metrics.specs.declared.text.Value.{Value};

    ghost Seen = { List ℕ × Option Value };

    ghost seen = { fact_of };

    ghost text = { λ place. fact_text };

    fn push(&self, out: &mut Vec<u8>, _place: ()) -> Result<(), AllocError> {
        match self.value {
            None => Ok(()),
            Some(value) => push_line(out, self.label, value),
        }
    }
}

/// Writes a line with a number.
#[tactic(auto, unfolding(crate::specs::Markup::line_text))]
fn push_line(out: &mut Vec<u8>, label: &str, value: Value) -> Result<(), AllocError>
    ensures { OnOk result (out.new.items ≡ out.old.items ++ line_text label.now (value_text value)) }
{
    push_tag(out, Tag::Line)?;
    out.extend_from_slice(label.as_bytes())?;
    push_tag(out, Tag::LineMiddle)?;
    push_value(out, value)?;
    push_tag(out, Tag::LineEnd)
}

/// Writes a line with a text.
#[tactic(auto, unfolding(crate::specs::Markup::line_text))]
pub(crate) fn push_text_line(out: &mut Vec<u8>, label: &str, text: &str) -> Result<(), AllocError>
    ensures { OnOk result (out.new.items ≡ out.old.items ++ line_text label.now (marked text.now)) }
{
    push_tag(out, Tag::Line)?;
    out.extend_from_slice(label.as_bytes())?;
    push_tag(out, Tag::LineMiddle)?;
    push_marked(out, text.as_bytes())?;
    push_tag(out, Tag::LineEnd)
}

/// Writes a plot of samples, and the newest of them as a number.
#[tactic(auto, unfolding(crate::specs::Markup::plot_cell))]
pub(crate) fn push_plot_cell(
    out: &mut Vec<u8>,
    label: &str,
    samples: &[u64],
) -> Result<(), AllocError>
    requires { length samples.now ≡ 120 }
    ensures { OnOk result (out.new.items ≡ out.old.items ++ plot_cell label.now samples.now) }
{
    push_cell_start(out, label)?;
    push_tag(out, Tag::Plot)?;
    push_points(out, samples)?;
    push_tag(out, Tag::PlotEnd)?;
    push_newest(out, samples)?;
    push_tag(out, Tag::CellEnd)
}

/// Writes the newest sample.
fn push_newest(out: &mut Vec<u8>, samples: &[u64]) -> Result<(), AllocError>
    requires { length samples.now ≡ 120 }
    ensures { OnOk result (out.new.items ≡ out.old.items ++ decimal (newest samples.now)) }
{
    push_number(out, samples[119])
}

/// Writes the points of a plot.
#[tactic(auto, unfolding(crate::specs::Markup::points_text))]
fn push_points(out: &mut Vec<u8>, samples: &[u64]) -> Result<(), AllocError>
    ensures { OnOk result (out.new.items ≡ out.old.items ++ points_text samples.now) }
{
    let step = greatest(samples) / 24 + 1;
    push_points_by(out, step, samples)
}

/// Writes points, whose height is the number of such steps.
fn push_points_by(out: &mut Vec<u8>, step: u64, samples: &[u64]) -> Result<(), AllocError>
    requires { 0 < step }
    ensures { OnOk result (out.new.items
        ≡ out.old.items ++ flat_map (point_text step) (map (sample_at samples.now) (range_with_len 0 (length samples.now)))) }
{
    for place in 0..samples.len() {
        push_point(out, step, place, samples[place])?;
    }
    Ok(())
}

fn push_point(out: &mut Vec<u8>, step: u64, place: usize, sample: u64) -> Result<(), AllocError>
    requires { 0 < step }
    ensures { OnOk result (out.new.items ≡ out.old.items ++ point_text step (place, sample)) }
{
    push_number(out, place as u64)?;
    out.push(b',')?;
    push_number(out, 24u64.saturating_sub(sample / step))?;
    out.push(b' ')?;
    Ok(())
}

fn greatest(samples: &[u64]) -> u64
    ensures { result ≡ greatest samples.now }
{
    let mut greatest: u64 = 0;
    for sample in samples {
        greatest = greatest.max(*sample);
    }
    greatest
}
