// Putting nodes and relationships: one line for each, with its attributes.
ghost use Rattle.book_tables.specs.Fits.{Fits};
ghost use Rattle.book_tables.specs.Owners.{tables_of};
ghost use Rattle.putting.specs.Putting.{Puts};
ghost use Rattle.tidy_text.specs.Pieces.{relationship_piece, head_piece, owner_piece, owners_text};
ghost use Rattle.tidy_text.specs.Inside.{RelationshipInside, HeadInside, OwnerInside};

use crate::entries;
use book_tables::relationships::{FROM_UNIT, LABEL_UNIT};
use book_tables::{BookCounts, LABEL_NAMES, NODE_NAMES, Owner, OwnerTables, RELATIONSHIPS, owners};
use putting::bytes;

// Puts a line for each node, or for each relationship.
pub fn put_owners(
    book: &[u8],
    words: &[u32],
    counts: BookCounts,
    owner: Owner,
    out: &mut [u8],
    at: usize,
) -> usize
    requires { Fits book.now words.now counts }
    ensures { Puts out.old at
        (owners_text book.now words.now owner (tables_of owner counts) (tables_of owner counts).count) out.new result }
{
    let tables = owners::tables(counts, owner);
    let count = tables.count;
    let mut next = at;
    for i in 0..count {
        next = put_owner(book, words, owner, tables, i, out, next);
    }
    next
}

// Puts the line of a node or a relationship, (node NAME ..) or (rel LABEL FROM TO ..), with its attributes.
fn put_owner(
    book: &[u8],
    words: &[u32],
    owner: Owner,
    tables: OwnerTables,
    number: usize,
    out: &mut [u8],
    at: usize,
) -> usize
    requires { OwnerInside book.now words.now owner tables number }
    ensures { Puts out.old at (owner_piece book.now words.now owner tables number) out.new result }
{
    let start = tables.entries;
    let own = words[start + number];
    let at = put_head(book, words, owner, number, out, at);
    let at = entries::put_entries(
        book,
        words,
        tables.attributes,
        tables.declared,
        own,
        out,
        at,
    );
    bytes::put_bytes(b")\n", out, at)
}

// Puts what stands before the attributes.
fn put_head(
    book: &[u8],
    words: &[u32],
    owner: Owner,
    number: usize,
    out: &mut [u8],
    at: usize,
) -> usize
    requires { HeadInside book.now words.now owner number }
    ensures { Puts out.old at (head_piece book.now words.now owner number) out.new result }
{
    match owner {
        Owner::Node => {
            let at = bytes::put_bytes(b"(node ", out, at);
            bytes::put_declared(book, words, NODE_NAMES, number, out, at)
        }
        Owner::Relationship => {
            let word = words[RELATIONSHIPS + number] as usize;
            put_relationship(book, words, word, out, at)
        }
    }
}

// Puts a relationship by its word: its label, the node it leaves and the node it runs to.
fn put_relationship(book: &[u8], words: &[u32], word: usize, out: &mut [u8], at: usize) -> usize
    requires { RelationshipInside book.now words.now word }
    ensures { Puts out.old at (relationship_piece book.now words.now word) out.new result }
{
    let label = word / LABEL_UNIT;
    let from = word / FROM_UNIT % FROM_UNIT;
    let to = word % FROM_UNIT;
    let at = bytes::put_bytes(b"(rel ", out, at);
    let at = bytes::put_declared(book, words, LABEL_NAMES, label, out, at);
    let at = bytes::put_bytes(b" ", out, at);
    let at = bytes::put_declared(book, words, NODE_NAMES, from, out, at);
    let at = bytes::put_bytes(b" ", out, at);
    bytes::put_declared(book, words, NODE_NAMES, to, out, at)
}
