// The edges of a text in its order, labels by their numbers in the book, ends by their numbers among the vertices.
ghost use Rattle.std.specs.Prelude.{◌≡◌};
ghost use Rattle.model.specs.Choice.{pick};
ghost use Rattle.model.specs.Names.{place};
ghost use Rattle.model.specs.Answers.{name_at};
ghost use Rattle.book_tables.specs.View.{book_at};
ghost use Rattle.book_tables.specs.Fits.{Fits};
ghost use Rattle.text.specs.Parts.{HasPart};
ghost use Rattle.query.specs.Edges.{edge_names_of, EdgesInside, edge_made};

use crate::found::Found;
use book_tables::{BookCounts, names};
use model::limits::MAX_EDGES;
use model::{Edge, Part};
use query_pieces::Link;
use query_survey::scan;
use text::parts;

// The edges found so far, in the order of the text.
pub type Edges = Found<Edge, MAX_EDGES>;

// The number of an edge variable among those found; how many there are where it is none of them.
pub fn edge_number(s: &[u8], links: Edges, name: Part) -> usize
    requires { EdgesInside s.now links × HasPart s.now name }
    ensures { result ≡ place (name_at s.now name) (edge_names_of s.now links) }
{
    let n = links.count;
    for k in 0..n {
        let e = links.items[k];
        let v = e.name;
        if scan::same_part(s, name, v) {
            return k;
        }
    }
    n
}

// The edge of a link, its label by number, between the last vertex and its own by number: it points to its own, or to the last.
pub fn edge_of(
    book: &[u8],
    words: &[u32],
    counts: BookCounts,
    s: &[u8],
    link: Link,
    points: bool,
    last: usize,
    own: usize,
) -> Edge
    requires { Fits book.now words.now counts × HasPart s.now link.label }
    ensures { result ≡ edge_made (book_at book.now words.now counts) s.now link
        (pick points last own) (pick points own last) }
{
    let label = names::find_label(book, words, counts, parts::part_of(s, link.label));
    let (from, to) = if points { (last, own) } else { (own, last) };
    Edge {
        name: link.edge,
        label,
        from,
        to,
    }
}
