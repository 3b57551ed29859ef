// The stores: one thing more in a table, and in the counts.
ghost use Rattle.std.specs.Prelude.{◌≡◌, ◌+◌, ◌≤◌, ◌<◌, length};
ghost use Rattle.book_tables.specs.Layout.{book_words};
ghost use Rattle.book_tables.specs.Fits.{Within};
ghost use Rattle.book_tables.specs.Owners.{tables_of, more_attrs, more_owners};
ghost use Rattle.book_tables.specs.Stores.{more_labels, without_chains, with_attr, with_label, with_owner, with_entry};

use crate::{BookCounts, ENTRIES, FROM_HEADS, LABEL_NAMES, NODE_HEADS, Owner, owners};
use chains::slots::SLOTS;
use model::limits::{MAX_DECLARED, MAX_NODES};

// An owner's entries are one word: their start times 4096 and how many they are.
pub const ENTRY_COUNTS: usize = 4096;

// An attribute entry has three words; the first is its attribute's number times 4 and its type.
pub const ENTRY_WORDS: usize = 3;

pub const ENTRY_TYPES: usize = 4;

// No node and no relationship is in any chain.
pub fn clear_chains(words: &mut [u32])
    requires { book_words ≤ length words.old }
    ensures { words.new ≡ without_chains words.old }
{
    chains::clear(words, NODE_HEADS, SLOTS);
    chains::clear(words, FROM_HEADS, MAX_NODES);
}

// An attribute's name and type behind those declared for an owner.
pub fn store_attr(
    words: &mut [u32],
    counts: BookCounts,
    owner: Owner,
    name: u32,
    kind: u32,
) -> BookCounts
    requires { (book_words ≤ length words.old) × Within counts × ((tables_of owner counts).declared < 32) }
    ensures stored { words.new
        ≡ with_attr words.old (tables_of owner counts).attributes (tables_of owner counts).declared name kind }
    ensures counted { result ≡ more_attrs owner counts }
{
    let tables = owners::tables(counts, owner);
    let offset = tables.attributes;
    let at = tables.declared;
    words[offset + at] = name;
    words[offset + MAX_DECLARED + at] = kind;
    owners::more_attrs(counts, owner)
}

// A label.
pub fn store_label(words: &mut [u32], counts: BookCounts, name: u32) -> BookCounts
    requires { (book_words ≤ length words.old) × (counts.labels < 32) }
    ensures stored { words.new ≡ with_label words.old counts name }
    ensures counted { result ≡ more_labels counts }
{
    let at = counts.labels;
    words[LABEL_NAMES + at] = name;
    BookCounts {
        vattrs: counts.vattrs,
        eattrs: counts.eattrs,
        labels: at + 1,
        nodes: counts.nodes,
        relationships: counts.relationships,
        entries: counts.entries,
    }
}

// A node or a relationship by its word, in the chain of its key; and that the n entries behind those counted are its own.
pub fn store_owner(
    words: &mut [u32],
    counts: BookCounts,
    owner: Owner,
    word: u32,
    key: usize,
    n: usize,
) -> BookCounts
    requires { (book_words ≤ length words.old) × Within counts × ((tables_of owner counts).count < 1024) × (key < 256) × (counts.entries + n ≤ 2048) }
    ensures stored { words.new ≡ with_owner words.old counts owner word key n }
    ensures counted { result ≡ more_owners owner counts n }
{
    let tables = owners::tables(counts, owner);
    let at = tables.count;
    let first = tables.owners;
    let entries = tables.entries;
    words[first + at] = word;
    words[entries + at] = (counts.entries * ENTRY_COUNTS + n) as u32;
    chains::add(words, tables.heads, tables.links, key, at);
    owners::more_owners(counts, owner, n)
}

// Attribute entry k: its attribute and type in one word, and the two words of its value.
pub fn store_entry(words: &mut [u32], k: usize, head: u32, first: u32, second: u32)
    requires { (book_words ≤ length words.old) × (k < 2048) }
    ensures { words.new ≡ with_entry words.old k head first second }
{
    words[ENTRIES + ENTRY_WORDS * k] = head;
    words[ENTRIES + ENTRY_WORDS * k + 1] = first;
    words[ENTRIES + ENTRY_WORDS * k + 2] = second;
}
