// Looking names up in the tables: the number of a name, or how many there are where it is none of them.
ghost use Rattle.std.specs.Prelude.{◌≡◌, ◌+◌, ◌/◌, ◌%◌, ◌≤◌, ◌<◌, length};
ghost use Rattle.model.specs.Names.{place, lowered, same_but_case};
ghost use Rattle.model.specs.Book.{attr_names, node_names};
ghost use Rattle.book_tables.specs.View.{word_at, name_in, slot_in, names_at, book_at};
ghost use Rattle.book_tables.specs.Fits.{Inside, NamesFit, Fits};
ghost use Rattle.book_tables.specs.Owners.{attrs_of};
ghost use Rattle.book_tables.specs.Alike.{alike, NodeAlike};

use crate::{BookCounts, LABEL_NAMES, NODE_HEADS, NODE_LINKS, NODE_NAMES, NameRule, Owner, owners};
use chains::slots::CASE;
use chains::{slots, walk};

// A name's word is its start times 32 and its length.
pub const NAME_LENGTHS: usize = 32;

// The number of a name among those counted at an offset.
pub fn find_name(text: &[u8], words: &[u32], offset: usize, count: usize, name: &[u8]) -> usize
    requires { NamesFit text.now words.now offset count × (offset + count ≤ length words.now) }
    ensures { result ≡ place name.now (names_at text.now words.now offset count) }
{
    for i in 0..count {
        if is_named(text, words, offset + i, NameRule::Exact, name) {
            return i;
        }
    }
    count
}

// The number of a name among those counted at an offset, tried first where it likely stands: no two names are the same, so that it is found there or, as
// ever, from the first on.
pub fn find_likely(
    text: &[u8],
    words: &[u32],
    offset: usize,
    count: usize,
    likely: usize,
    name: &[u8],
) -> usize
    requires { NamesFit text.now words.now offset count × (offset + count ≤ length words.now) }
    ensures { result ≡ place name.now (names_at text.now words.now offset count) }
{
    if likely < count {
        if is_named(text, words, offset + likely, NameRule::Exact, name) {
            return likely;
        }
    }
    find_name(text, words, offset, count, name)
}

// The number of an attribute declared for an owner.
pub fn find_attr(text: &[u8], words: &[u32], counts: BookCounts, owner: Owner, name: &[u8]) -> usize
    requires { Fits text.now words.now counts }
    ensures { result ≡ place name.now (attr_names (attrs_of owner (book_at text.now words.now counts))) }
{
    let tables = owners::tables(counts, owner);
    find_name(text, words, tables.attributes, tables.declared, name)
}

// The number of a label.
pub fn find_label(text: &[u8], words: &[u32], counts: BookCounts, name: &[u8]) -> usize
    requires { Fits text.now words.now counts }
    ensures { result ≡ place name.now (book_at text.now words.now counts).labels }
{
    find_name(text, words, LABEL_NAMES, counts.labels, name)
}

// The number of a node.
pub fn find_node(text: &[u8], words: &[u32], counts: BookCounts, name: &[u8]) -> usize
    requires { Fits text.now words.now counts }
    ensures { result ≡ place name.now (node_names (book_at text.now words.now counts)) }
{
    find_alike(text, words, counts, NameRule::Exact, name)
}

// The number of a node whose name is taken for the same by a rule, or how many nodes there are.
pub fn find_alike(
    text: &[u8],
    words: &[u32],
    counts: BookCounts,
    rule: NameRule,
    name: &[u8],
) -> usize
    requires { Fits text.now words.now counts }
    ensures { NodeAlike rule text.now words.now counts name.now result }
{
    for node in walk::numbers(words, NODE_HEADS, NODE_LINKS, slots::slot(name)) {
        if is_named(text, words, NODE_NAMES + node, rule, name) {
            return node;
        }
    }
    counts.nodes
}

// Whether the name's word at a place says a name that is taken for this one by a rule.
pub fn is_named(text: &[u8], words: &[u32], at: usize, rule: NameRule, name: &[u8]) -> bool
    requires { (at < length words.now) × Inside text.now (word_at words.now at / 32) (word_at words.now at % 32) }
    ensures { result ≡ alike rule name.now (name_in text.now (word_at words.now at)) }
{
    let word = words[at] as usize;
    let start = word / NAME_LENGTHS;
    let end = start + word % NAME_LENGTHS;
    is_alike(rule, name, &text[start..end])
}

// Whether two names are taken for the same by a rule.
fn is_alike(rule: NameRule, a: &[u8], b: &[u8]) -> bool
    ensures { result ≡ alike rule a.now b.now }
{
    match rule {
        NameRule::Exact => compare::same_bytes(a, b),
        NameRule::AnyCase => same_but_case(a, b),
    }
}

// Whether two names are equal but for the case of letters.
fn same_but_case(a: &[u8], b: &[u8]) -> bool
    ensures { result ≡ same_but_case a.now b.now }
{
    if a.len() != b.len() {
        return false;
    }
    for (i, x) in a.iter().enumerate() {
        if small(*x) != small(b[i]) {
            return false;
        }
    }
    true
}

// A byte, an upper case letter as the lower case one.
fn small(b: u8) -> u8
    ensures { result ≡ lowered b }
{
    if b < b'A' {
        return b;
    }
    if b'Z' < b {
        return b;
    }
    b + CASE
}

// The slot of the name that a word says.
pub fn slot_of(text: &[u8], word: u32) -> usize
    requires { Inside text.now (word / 32) (word % 32) }
    ensures { (result ≡ slot_in text.now word) × (result < 256) }
{
    let start = word as usize / NAME_LENGTHS;
    let end = start + word as usize % NAME_LENGTHS;
    slots::slot(&text[start..end])
}
