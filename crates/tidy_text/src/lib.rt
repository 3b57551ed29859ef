// The tidy text of a loaded book, put into a lent buffer: what is declared, the nodes, the relationships.
#![tactic(auto)]

ghost use Rattle.model.specs.Tidy.{tidy_text};
ghost use Rattle.book_tables.specs.View.{book_at};
ghost use Rattle.book_tables.specs.Fits.{Fits};
ghost use Rattle.putting.specs.Putting.{Puts};

use book_tables::{BookCounts, EATTR_NAMES, Owner, VATTR_NAMES};

mod declarations; // declarations.rt: the lines that declare attributes and labels
mod entries; // entries.rt: attributes with their values
mod owners; // owners.rt: the lines of nodes and relationships

// Puts the tidy text of a book at a place of a buffer.
pub fn put_tidy(book: &[u8], words: &[u32], counts: BookCounts, out: &mut [u8], at: usize) -> usize
    requires { Fits book.now words.now counts }
    ensures { Puts out.old at (tidy_text (book_at book.now words.now counts)) out.new result }
{
    let at = declarations::put_attrs(book, words, b"(vattr ", VATTR_NAMES, counts.vattrs, out, at);
    let at = declarations::put_attrs(book, words, b"(eattr ", EATTR_NAMES, counts.eattrs, out, at);
    let at = declarations::put_labels(book, words, counts.labels, out, at);
    let at = owners::put_owners(book, words, counts, Owner::Node, out, at);
    owners::put_owners(book, words, counts, Owner::Relationship, out, at)
}
