// The line of a book by its form.
ghost use Rattle.std.specs.Prelude.{◌≡◌, true, false};
ghost use Rattle.model.specs.Bytes.{Bytes};
ghost use Rattle.model.specs.Choice.{just, and_then};
ghost use Rattle.model.specs.Items.{line_items};
ghost use Rattle.model.specs.Values.{Kind};
ghost use Rattle.model.specs.BookLines.{BookLine, attr_line, label_line, book_line};
ghost use Rattle.item_forms.specs.Ends.{form_at};
ghost use Rattle.book_tables.specs.declared.NameRule.{NameRule as Rule};
ghost use Rattle.book_tables.specs.View.{book_at};
ghost use Rattle.book_tables.specs.Owners.{declares};
ghost use Rattle.book_steps.specs.Steps.{Stepped};
ghost use Rattle.book_lines.specs.Forms.{form_step_of, FormAsked, line_of, on_attr};
ghost use Rattle.book_lines.specs.Names.{AttrFits};

use crate::{Head, owners, pieces};
use book_tables::{BookCounts, NameRule, Owner};
use item_forms::{Form, LINE_CLOSES, LIST_DEPTH, places};
use model::Part;
use model::refusal_numbers::BROKEN;
use text::parts;

// Reads a line, which begins at the base in the text, and adds it; a node is given a second time by the rule for names.
pub fn read_line(
    text: &[u8],
    line: &[u8],
    base: usize,
    words: &mut [u32],
    counts: BookCounts,
    rule: NameRule,
) -> Result<BookCounts, u32>
    requires { FormAsked text.now line.now words.old counts base }
    ensures { Stepped text.now words.new result
        (form_step_of rule (book_at text.now words.old counts) (and_then (line_items line.now) book_line)) }
{
    match item_forms::open_form(line, 0) {
        Some(from) => read_head(
            text,
            line,
            base,
            from,
            Form {
                inner: LIST_DEPTH,
                closes: LINE_CLOSES,
            },
            words,
            counts,
            rule,
        ),
        None => Err(BROKEN),
    }
}

// Reads the form of a line from its first word on, wherever among the lists of the text it stands.
pub fn read_head(
    text: &[u8],
    line: &[u8],
    base: usize,
    from: usize,
    form: Form,
    words: &mut [u32],
    counts: BookCounts,
    rule: NameRule,
) -> Result<BookCounts, u32>
    requires { FormAsked text.now line.now words.old counts base }
    ensures { Stepped text.now words.new result
        (form_step_of rule (book_at text.now words.old counts) (form_at form true from line.now book_line)) }
{
    match places::next_word(line, from, true, form.inner) {
        Some(word) => read_rest(
            text,
            line,
            base,
            word.start + word.length,
            form,
            pieces::head(parts::part_of(line, word)),
            words,
            counts,
            rule,
        ),
        None => Err(BROKEN),
    }
}

// Reads the rest of a form, by its first word.
fn read_rest(
    text: &[u8],
    line: &[u8],
    base: usize,
    from: usize,
    form: Form,
    head: Head,
    words: &mut [u32],
    counts: BookCounts,
    rule: NameRule,
) -> Result<BookCounts, u32>
    requires { FormAsked text.now line.now words.old counts base }
    ensures { Stepped text.now words.new result
        (form_step_of rule (book_at text.now words.old counts) (form_at form false from line.now (line_of head))) }
{
    match head {
        Head::Attr(owner) => attr_line(text, line, base, from, form, owner, words, counts),
        Head::Label => label_line(text, line, base, from, form, words, counts),
        Head::Node => owners::node_line(text, line, base, from, form, words, counts, rule),
        Head::Rel => owners::rel_line(text, line, base, from, form, words, counts),
        Head::Other => Err(BROKEN),
    }
}

// NAME TYPE, and nothing more: where the name stands, and the type.
fn read_attr(line: &[u8], from: usize, form: Form) -> Option<(Part, u32)>
    ensures form { (make : Bytes → Kind → BookLine)
        → form_at form false from line.now (attr_line make) ≡ on_attr line.now result (λ n k. just (make n k)) }
    ensures fits { AttrFits line.now from result }
{
    let name = places::next_name(line, from, form.inner)?;
    let (kind, end) = pieces::next_kind(line, name.start + name.length, form.inner)?;
    if item_forms::form_closes(line, end, form.closes) {
        return Some((name, kind));
    }
    None
}

// (vattr NAME TYPE), (eattr NAME TYPE)
fn attr_line(
    text: &[u8],
    line: &[u8],
    base: usize,
    from: usize,
    form: Form,
    owner: Owner,
    words: &mut [u32],
    counts: BookCounts,
) -> Result<BookCounts, u32>
    requires { FormAsked text.now line.now words.old counts base }
    ensures { (rule : Rule) → Stepped text.now words.new result
        (form_step_of rule (book_at text.now words.old counts) (form_at form false from line.now (attr_line (declares owner)))) }
{
    let Some((name, kind)) = read_attr(line, from, form) else {
        return Err(BROKEN);
    };
    book_steps::add_attr(text, words, counts, owner, pieces::moved(name, base), kind)
}

// (label NAME)
fn label_line(
    text: &[u8],
    line: &[u8],
    base: usize,
    from: usize,
    form: Form,
    words: &mut [u32],
    counts: BookCounts,
) -> Result<BookCounts, u32>
    requires { FormAsked text.now line.now words.old counts base }
    ensures { (rule : Rule) → Stepped text.now words.new result
        (form_step_of rule (book_at text.now words.old counts) (form_at form false from line.now label_line)) }
{
    match places::next_name(line, from, form.inner) {
        Some(name) => {
            if item_forms::form_closes(line, name.start + name.length, form.closes) {
                return book_steps::add_label(text, words, counts, pieces::moved(name, base));
            }
            Err(BROKEN)
        }
        None => Err(BROKEN),
    }
}
