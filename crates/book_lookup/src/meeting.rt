// Whether the value of an entry meets a requirement: stands in a relation to a value.
ghost use Rattle.std.specs.Prelude.{◌≡◌};
ghost use Rattle.model.specs.Bytes.{Bytes};
ghost use Rattle.model.specs.Values.{int, str, bool};
ghost use Rattle.model.specs.TextOrder.{byte_order, by_order};
ghost use Rattle.model.specs.Graph.{compares, same_or_not, in_relation};
ghost use Rattle.model.specs.Answers.{relation_of, value_of};
ghost use Rattle.book_lookup.specs.Entries.{entry_value};
ghost use Rattle.book_lookup.specs.Ready.{Room, EntryReady, ValueInside};

use crate::values::{kind_of, number_of, text_of, truth_of};
use book_tables::values::{INT, STR};
use model::{Relation, Value};
use std::cmp::Ordering;

// Whether an entry's value stands in a relation to a value whose text is part of `text`; values of two types stand in none.
pub fn entry_meets(
    book: &[u8],
    words: &[u32],
    entry: usize,
    relation: Relation,
    value: Value,
    text: &[u8],
) -> bool
    requires { EntryReady book.now words.now entry × ValueInside text.now value }
    ensures { result ≡ in_relation (relation_of relation) (entry_value book.now words.now entry) (value_of text.now value) }
{
    match value {
        Value::Number(number) => entry_meets_number(words, entry, relation, number),
        Value::Text(start, size) => entry_meets_text(
            book,
            words,
            entry,
            relation,
            &text[start..start + size],
        ),
        Value::Truth(truth) => entry_meets_truth(words, entry, relation, truth),
    }
}

// Whether an entry's value stands in a relation to a number.
fn entry_meets_number(words: &[u32], entry: usize, relation: Relation, number: u64) -> bool
    requires { Room words.now entry }
    ensures { (book : Bytes) → result ≡ in_relation (relation_of relation) (entry_value book words.now entry) (int number) }
{
    if kind_of(words, entry) != INT {
        return false;
    }
    numbers_meet(relation, number_of(words, entry), number)
}

// Whether an entry's value stands in a relation to a text.
fn entry_meets_text(
    book: &[u8],
    words: &[u32],
    entry: usize,
    relation: Relation,
    text: &[u8],
) -> bool
    requires { EntryReady book.now words.now entry }
    ensures { result ≡ in_relation (relation_of relation) (entry_value book.now words.now entry) (str text.now) }
{
    if kind_of(words, entry) != STR {
        return false;
    }
    texts_meet(relation, text_of(book, words, entry), text)
}

// Whether an entry's value stands in a relation to a truth value.
fn entry_meets_truth(words: &[u32], entry: usize, relation: Relation, truth: bool) -> bool
    requires { Room words.now entry }
    ensures { (book : Bytes) → result ≡ in_relation (relation_of relation) (entry_value book words.now entry) (bool truth) }
{
    if kind_of(words, entry) <= STR {
        return false;
    }
    same_meets(relation, truth_of(words, entry) == truth)
}

// Whether two numbers stand in a relation.
fn numbers_meet(relation: Relation, x: u64, y: u64) -> bool
    ensures { result ≡ compares (relation_of relation) x y }
{
    match relation {
        Relation::Equal => x == y,
        Relation::Differs => x != y,
        Relation::Less => x < y,
        Relation::AtMost => x <= y,
        Relation::Greater => y < x,
        Relation::AtLeast => y <= x,
    }
}

// Whether two texts stand in a relation: by their byte order, as numbers in that order do.
fn texts_meet(relation: Relation, x: &[u8], y: &[u8]) -> bool
    ensures { result ≡ by_order (relation_of relation) (byte_order x.now y.now) }
{
    match compare::compare(x, y) {
        Ordering::Less => numbers_meet(relation, 0, 1),
        Ordering::Equal => numbers_meet(relation, 0, 0),
        Ordering::Greater => numbers_meet(relation, 1, 0),
    }
}

// Whether truth values that are the same, or not, stand in a relation: only = and <> are between them.
fn same_meets(relation: Relation, same: bool) -> bool
    ensures { result ≡ same_or_not (relation_of relation) same }
{
    match relation {
        Relation::Equal => same,
        Relation::Differs => !same,
        Relation::Less => false,
        Relation::AtMost => false,
        Relation::Greater => false,
        Relation::AtLeast => false,
    }
}
