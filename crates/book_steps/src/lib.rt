// One line more, after its form was read: the lowest of its faults 4 to 7, or its words in the tables.
// What a line gives is the counts with it, or its fault in the paper's numbers.
#![tactic(auto)]

ghost use Rattle.std.specs.Prelude.{◌≡◌, List, ◌+◌, ◌*◌, ◌≤◌, ◌<◌, ◌||◌, leb, ltb};
ghost use Rattle.model.specs.Values.{Entry};
ghost use Rattle.model.specs.Answers.{name_at};
ghost use Rattle.model.specs.BookLines.{label, node, rel};
ghost use Rattle.book_tables.specs.View.{kind_in, book_at};
ghost use Rattle.book_tables.specs.declared.NameRule.{NameRule as Rule};
ghost use Rattle.book_tables.specs.Fits.{Fits};
ghost use Rattle.book_tables.specs.Owners.{declares};
ghost use Rattle.book_entries.specs.Known.{EntriesKnown};
ghost use Rattle.book_tables.specs.Layout.{vattr_names, eattr_names};
ghost use Rattle.book_steps.specs.Steps.{NameAsked, Stepped, step_of, owner_fault};

use book_entries::EntriesRead;
use book_tables::names::NAME_LENGTHS;
use book_tables::relationships::{FROM_UNIT, LABEL_UNIT};
use book_tables::{BookCounts, NameRule, Owner, names, owners, relationships, stores};
use model::Part;
use model::limits::{MAX_DECLARED, MAX_ENTRIES, MAX_NODES, MAX_RELATIONSHIPS};
use model::refusal_numbers::{LIMIT_PASSED, NOT_DECLARED, SECOND_TIME};
use text::parts;

// A name's word.
fn name_word(name: Part) -> u32
    requires { (name.start ≤ 65536) × (name.length < 32) }
    ensures { result ≡ name.start * 32 + name.length }
{
    (name.start * NAME_LENGTHS + name.length) as u32
}

// (vattr NAME TYPE), (eattr NAME TYPE)
pub fn add_attr(
    text: &[u8],
    words: &mut [u32],
    counts: BookCounts,
    owner: Owner,
    name: Part,
    kind: u32,
) -> Result<BookCounts, u32>
    requires { NameAsked text.now name × Fits text.now words.old counts }
    ensures { (rule : Rule) → Stepped text.now words.new result
        (step_of rule (book_at text.now words.old counts) (declares owner (name_at text.now name) (kind_in kind))) }
{
    let tables = owners::tables(counts, owner);
    let count = tables.declared;
    if names::find_attr(text, words, counts, owner, parts::part_of(text, name)) < count {
        return Err(SECOND_TIME);
    }
    if MAX_DECLARED <= count {
        return Err(LIMIT_PASSED);
    }
    Ok(stores::store_attr(words, counts, owner, name_word(name), kind))
}

// (label NAME)
pub fn add_label(
    text: &[u8],
    words: &mut [u32],
    counts: BookCounts,
    name: Part,
) -> Result<BookCounts, u32>
    requires { NameAsked text.now name × Fits text.now words.old counts }
    ensures { (rule : Rule) → Stepped text.now words.new result
        (step_of rule (book_at text.now words.old counts) (label (name_at text.now name))) }
{
    let count = counts.labels;
    if names::find_label(text, words, counts, parts::part_of(text, name)) < count {
        return Err(SECOND_TIME);
    }
    if MAX_DECLARED <= count {
        return Err(LIMIT_PASSED);
    }
    Ok(stores::store_label(words, counts, name_word(name)))
}

// The lowest fault of a node or a relationship, if it has one: whether it is there already, the lowest fault of its entries, whether a count passes its limit.
fn owner_fault(there: bool, fault: Option<u32>, full: bool) -> Option<u32>
    ensures { result ≡ owner_fault there fault full }
{
    if fault == Some(NOT_DECLARED) {
        return fault;
    }
    if there {
        return Some(SECOND_TIME);
    }
    if fault.is_none() && full {
        return Some(LIMIT_PASSED);
    }
    fault
}

// Whether a count, or that of the entries, passes its limit with one owner more and its entries.
fn is_full(count: usize, limit: usize, entries: usize, more: usize) -> bool
    requires { (entries ≤ 2048) × (more ≤ 65536) }
    ensures { result ≡ (leb limit count || ltb 2048 (entries + more)) }
{
    if limit <= count {
        return true;
    }
    MAX_ENTRIES < entries + more
}

// (node NAME (ATTR VALUE)...), its entries being stored behind those counted.
pub fn add_node(
    text: &[u8],
    words: &mut [u32],
    counts: BookCounts,
    rule: NameRule,
    name: Part,
    read: EntriesRead,
) -> Result<BookCounts, u32>
    requires { NameAsked text.now name × Fits text.now words.old counts × (read.count ≤ 65536) }
    ensures { (es : List Entry) → EntriesKnown text.now words.old counts vattr_names counts.vattrs es read
        → Stepped text.now words.new result
        (step_of rule (book_at text.now words.old counts) (node (name_at text.now name) es)) }
{
    let count = counts.nodes;
    let there = names::find_alike(text, words, counts, rule, parts::part_of(text, name)) < count;
    let full = is_full(count, MAX_NODES, counts.entries, read.count);
    if let Some(fault) = owner_fault(there, read.fault, full) {
        return Err(fault);
    }
    let word = name_word(name);
    let slot = names::slot_of(text, word);
    Ok(stores::store_owner(words, counts, Owner::Node, word, slot, read.count))
}

// (rel LABEL FROM TO (ATTR VALUE)...), its entries being stored behind those counted.
pub fn add_relationship(
    text: &[u8],
    words: &mut [u32],
    counts: BookCounts,
    label: Part,
    from: Part,
    to: Part,
    read: EntriesRead,
) -> Result<BookCounts, u32>
    requires { NameAsked text.now label × NameAsked text.now from × NameAsked text.now to × Fits text.now words.old counts
        × (read.count ≤ 65536) }
    ensures { (rule : Rule) (es : List Entry) → EntriesKnown text.now words.old counts eattr_names counts.eattrs es read
        → Stepped text.now words.new result
        (step_of rule (book_at text.now words.old counts)
        (rel (name_at text.now label) (name_at text.now from) (name_at text.now to) es)) }
{
    let l = names::find_label(text, words, counts, parts::part_of(text, label));
    if counts.labels <= l {
        return Err(NOT_DECLARED);
    }
    let x = names::find_node(text, words, counts, parts::part_of(text, from));
    if counts.nodes <= x {
        return Err(NOT_DECLARED);
    }
    let y = names::find_node(text, words, counts, parts::part_of(text, to));
    if counts.nodes <= y {
        return Err(NOT_DECLARED);
    }
    let there = relationships::is_related(text, words, counts, l, x, y);
    let full = is_full(
        counts.relationships,
        MAX_RELATIONSHIPS,
        counts.entries,
        read.count,
    );
    if let Some(fault) = owner_fault(there, read.fault, full) {
        return Err(fault);
    }
    let word = (l * LABEL_UNIT + x * FROM_UNIT + y) as u32;
    Ok(stores::store_owner(words, counts, Owner::Relationship, word, x, read.count))
}
