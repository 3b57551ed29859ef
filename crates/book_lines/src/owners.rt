// The lines of nodes and of relationships: their names, and their entries to the end of the line.
ghost use Rattle.std.specs.Prelude.{◌≡◌, false, ◌+◌, ◌≤◌, length};
ghost use Rattle.model.specs.BookLines.{node_line, rel_line};
ghost use Rattle.item_forms.specs.Ends.{form_at};
ghost use Rattle.book_tables.specs.declared.NameRule.{NameRule as Rule};
ghost use Rattle.book_tables.specs.View.{book_at};
ghost use Rattle.book_tables.specs.Owners.{tables_of};
ghost use Rattle.book_steps.specs.Steps.{Stepped};
ghost use Rattle.book_tables.specs.ValueWords.{EndsBefore};
ghost use Rattle.book_lines.specs.Forms.{form_step_of, FormAsked};
ghost use Rattle.book_lines.specs.Names.{NamesTold};
ghost use Rattle.book_lines.specs.Entries.{shift, EntriesDone};

use crate::{RelNames, pieces};
use book_entries::EntriesRead;
use book_tables::{BookCounts, NameRule, Owner};
use item_forms::{Form, places};
use items::Next;
use model::Value;
use model::refusal_numbers::BROKEN;

// A value with its text's place in the whole text.
fn shifted(value: Value, base: usize) -> Value
    requires { EndsBefore 65536 (shift base value) }
    ensures { result ≡ shift base value }
{
    match value {
        Value::Number(n) => Value::Number(n),
        Value::Text(start, size) => Value::Text(base + start, size),
        Value::Truth(truth) => Value::Truth(truth),
    }
}

// (ATTR VALUE)... to the end of the form, of an owner's attributes; each is stored behind those before it. In a list of the form `inner` lists
// may still be opened, and `closes` lists close behind it: as two numbers they are read sooner than as one struct.
fn read_entries(
    text: &[u8],
    line: &[u8],
    base: usize,
    from: usize,
    inner: usize,
    closes: usize,
    words: &mut [u32],
    counts: BookCounts,
    owner: Owner,
) -> Option<EntriesRead>
    requires { FormAsked text.now line.now words.old counts base × (from ≤ length line.now) }
    ensures { EntriesDone (record { inner = inner; closes = closes }) text.now line.now words.old
        words.new counts (tables_of owner counts).attributes (tables_of owner counts).declared from result }
{
    let tables = book_tables::owners::tables(counts, owner);
    let offset = tables.attributes;
    let declared = tables.declared;
    let mut at = from;
    let mut known = EntriesRead {
        fault: None,
        seen: 0,
        count: 0,
    };
    loop {
        match item_forms::entry(line, at, inner) {
            Some(Next::Item(found)) => {
                known = book_entries::add_entry(
                    text,
                    words,
                    counts,
                    offset,
                    declared,
                    pieces::moved(found.name, base),
                    shifted(found.value, base),
                    known,
                );
                at = found.next;
            }
            Some(Next::Close(e)) => {
                if item_forms::form_ends(line, e, closes) {
                    return Some(known);
                }
                return None;
            }
            None => {
                return None;
            }
        }
    }
}

// (node NAME (ATTR VALUE)...)
pub fn node_line(
    text: &[u8],
    line: &[u8],
    base: usize,
    from: usize,
    form: Form,
    words: &mut [u32],
    counts: BookCounts,
    rule: NameRule,
) -> Result<BookCounts, u32>
    requires { FormAsked text.now line.now words.old counts base }
    ensures { Stepped text.now words.new result
        (form_step_of rule (book_at text.now words.old counts) (form_at form false from line.now node_line)) }
{
    let Some(name) = places::next_name(line, from, form.inner) else {
        return Err(BROKEN);
    };
    let Some(read) = read_entries(
        text,
        line,
        base,
        name.start + name.length,
        form.inner,
        form.closes,
        words,
        counts,
        Owner::Node,
    ) else {
        return Err(BROKEN);
    };
    book_steps::add_node(text, words, counts, rule, pieces::moved(name, base), read)
}

// LABEL FROM TO
fn read_names(line: &[u8], from: usize, form: Form) -> Option<RelNames>
    ensures { NamesTold form line.now from result }
{
    let label = places::next_name(line, from, form.inner)?;
    let x = places::next_name(line, label.start + label.length, form.inner)?;
    let y = places::next_name(line, x.start + x.length, form.inner)?;
    Some(RelNames {
        label,
        from: x,
        to: y,
        end: y.start + y.length,
    })
}

// (rel LABEL FROM TO (ATTR VALUE)...)
pub fn rel_line(
    text: &[u8],
    line: &[u8],
    base: usize,
    from: usize,
    form: Form,
    words: &mut [u32],
    counts: BookCounts,
) -> Result<BookCounts, u32>
    requires { FormAsked text.now line.now words.old counts base }
    ensures { (rule : Rule) → Stepped text.now words.new result
        (form_step_of rule (book_at text.now words.old counts) (form_at form false from line.now rel_line)) }
{
    let Some(names) = read_names(line, from, form) else {
        return Err(BROKEN);
    };
    let Some(read) = read_entries(
        text,
        line,
        base,
        names.end,
        form.inner,
        form.closes,
        words,
        counts,
        Owner::Relationship,
    ) else {
        return Err(BROKEN);
    };
    book_steps::add_relationship(
        text,
        words,
        counts,
        pieces::moved(names.label, base),
        pieces::moved(names.from, base),
        pieces::moved(names.to, base),
        read,
    )
}
