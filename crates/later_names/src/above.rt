// The nodes above a node whose names are, case aside, its own.
ghost use Rattle.std.specs.Prelude.{◌<◌};
ghost use Rattle.model.specs.Book.{node_names};
ghost use Rattle.book_tables.specs.View.{book_at};
ghost use Rattle.book_tables.specs.Fits.{Fits};
ghost use Rattle.later_names.specs.Later.{FoundAbove};

use book_lookup::names::node_name;
use book_tables::names::is_named;
use book_tables::{BookCounts, NODE_LINKS, NODE_NAMES, NameRule};
use chains::walk;

// How many they are, counted to two: with one of them the name is a later one; with two its new name is given above, to the second of them.
pub fn earlier_alike(text: &[u8], words: &[u32], counts: BookCounts, node: usize) -> usize
    requires { Fits text.now words.now counts × (node < counts.nodes) }
    ensures { FoundAbove (node_names (book_at text.now words.now counts)) node result }
{
    let name = node_name(text, words, node);
    let mut found: usize = 0;
    for other in walk::behind(words, NODE_LINKS, node) {
        if is_named(text, words, NODE_NAMES + other, NameRule::AnyCase, name) {
            if 0 < found {
                return 2;
            }
            found = 1;
        }
    }
    found
}
