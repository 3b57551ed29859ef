// The name of a node, for printing rows.
ghost use Rattle.std.specs.Prelude.{◌≡◌, [], ◌<◌, get_or};
ghost use Rattle.model.specs.Book.{node_names};
ghost use Rattle.book_tables.specs.View.{book_at};
ghost use Rattle.book_tables.specs.declared.BookCounts.{BookCounts as Counts};
ghost use Rattle.book_lookup.specs.Ready.{HasNode};

use book_tables::NODE_NAMES;
use book_tables::names::NAME_LENGTHS;

// The name of a node: that very part of the book's text.
pub fn node_name<'a>(book: &'a [u8], words: &[u32], node: usize) -> &'a [u8]
    requires { HasNode book.now words.now node }
    ensures { (counts : Counts) → node < counts.nodes → result.now ≡ get_or (node_names (book_at book.now words.now counts)) node [] }
{
    let word = words[NODE_NAMES + node] as usize;
    let start = word / NAME_LENGTHS;
    let end = start + word % NAME_LENGTHS;
    &book[start..end]
}
