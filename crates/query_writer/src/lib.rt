// The query writer: a pattern's text into a lent buffer, or its refusal where the text does not fit.
#![tactic(auto)]

ghost use Rattle.model.specs.Answers.{pattern_in};
ghost use Rattle.model.specs.Writing.{written_query};
ghost use Rattle.book_tables.specs.View.{book_at};
ghost use Rattle.putting.specs.Putting.{Puts};
ghost use Rattle.putting.specs.Whole.{Writes};
ghost use Rattle.query_writer.specs.Pieces.{pattern_text};
ghost use Rattle.query_writer.specs.Writable.{Writable};
ghost use Rattle.query_writer.specs.Inside.{PatternInside};

use book_tables::BookCounts;
use model::Pattern;
use model::limits::MAX_QUERY_BYTES;
use putting::bytes;

mod conditions;
mod matches;
mod returns;
mod values;

// Writes the query of a pattern in front of a buffer, and answers its length; a text that does not fit leaves the buffer as it is.
pub fn write_query(
    book: &[u8],
    words: &[u32],
    counts: BookCounts,
    query: &[u8],
    pattern: Pattern,
    out: &mut [u8],
) -> Option<usize>
    requires { Writable book.now words.now counts query.now pattern }
    ensures { Writes 2048 (written_query (pattern_in (book_at book.now words.now counts) query.now pattern))
        out.old out.new result }
{
    let length = put_query(book, words, query, pattern, &mut out[..0], 0);
    if putting::too_long(MAX_QUERY_BYTES, out.len(), length) {
        return None;
    }
    put_query(book, words, query, pattern, out, 0);
    Some(length)
}

// Puts the whole text: Matches, conditions, Return.
fn put_query(
    book: &[u8],
    words: &[u32],
    query: &[u8],
    pattern: Pattern,
    out: &mut [u8],
    at: usize,
) -> usize
    requires { PatternInside book.now words.now query.now pattern }
    ensures { Puts out.old at (pattern_text book.now words.now query.now pattern) out.new result }
{
    let vertices = pattern.vertices;
    let edges = pattern.edges;
    let clauses = pattern.clauses;
    let names = pattern.returns;
    let counts = pattern.counts;
    let at = matches::put_vertices(query, vertices, counts.vertices, out, at);
    let at = matches::put_edges(book, words, query, vertices, edges, counts.edges, out, at);
    let at = conditions::put_conditions(
        book,
        words,
        query,
        vertices,
        edges,
        clauses,
        counts.clauses,
        out,
        at,
    );
    let at = bytes::put_bytes(b" Return ", out, at);
    returns::put_returns(query, vertices, names, counts.returns, out, at)
}
