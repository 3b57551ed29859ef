// Putting the Matches: one for each vertex, then one for each edge.
ghost use Rattle.std.specs.Prelude.{[], ◌++◌};
ghost use Rattle.model.specs.Bytes.{bytes_of};
ghost use Rattle.putting.specs.Putting.{Puts};
ghost use Rattle.putting.specs.Listing.{before};
ghost use Rattle.query_writer.specs.Pieces.{vertex_piece, edge_piece, vertices_text, edges_text};
ghost use Rattle.text.specs.Parts.{HasPart};
ghost use Rattle.query_writer.specs.Inside.{EdgeInside, VerticesInside, EdgesInside};

use book_tables::LABEL_NAMES;
use model::limits::{MAX_EDGES, MAX_VERTICES};
use model::{Edge, Part};
use putting::bytes;

// Puts a Match for each vertex.
pub fn put_vertices(
    query: &[u8],
    vertices: [Part; MAX_VERTICES],
    count: usize,
    out: &mut [u8],
    at: usize,
) -> usize
    requires { VerticesInside query.now vertices count }
    ensures { Puts out.old at (vertices_text query.now vertices count) out.new result }
{
    let mut next = at;
    for i in 0..count {
        let name = vertices[i];
        next = put_vertex(query, i, name, out, next);
    }
    next
}

// Puts a Match for each edge.
pub fn put_edges(
    book: &[u8],
    words: &[u32],
    query: &[u8],
    vertices: [Part; MAX_VERTICES],
    edges: [Edge; MAX_EDGES],
    count: usize,
    out: &mut [u8],
    at: usize,
) -> usize
    requires { EdgesInside book.now words.now query.now vertices edges count }
    ensures { Puts out.old at (edges_text book.now words.now query.now vertices edges count)
        out.new result }
{
    let mut next = at;
    for i in 0..count {
        let edge = edges[i];
        next = put_edge(book, words, query, vertices, edge, out, next);
    }
    next
}

// Puts Match (v), behind a space if it is not the first.
fn put_vertex(query: &[u8], i: usize, name: Part, out: &mut [u8], at: usize) -> usize
    requires { HasPart query.now name }
    ensures { Puts out.old at (before [] (bytes_of " ") i ++ vertex_piece query.now name) out.new result }
{
    let at = bytes::put_before(i, b"", b" ", out, at);
    let at = bytes::put_bytes(b"Match (", out, at);
    let at = bytes::put_part(query, name, out, at);
    bytes::put_bytes(b")", out, at)
}

// Puts Match (u)-[e:label]->(v), behind a space.
fn put_edge(
    book: &[u8],
    words: &[u32],
    query: &[u8],
    vertices: [Part; MAX_VERTICES],
    edge: Edge,
    out: &mut [u8],
    at: usize,
) -> usize
    requires { EdgeInside book.now words.now query.now vertices edge }
    ensures { Puts out.old at (bytes_of " " ++ edge_piece book.now words.now query.now vertices edge)
        out.new result }
{
    let u = edge.from;
    let v = edge.to;
    let from = vertices[u];
    let to = vertices[v];
    let name = edge.name;
    let at = bytes::put_bytes(b" Match (", out, at);
    let at = bytes::put_part(query, from, out, at);
    let at = bytes::put_bytes(b")-[", out, at);
    let at = bytes::put_part(query, name, out, at);
    let at = bytes::put_bytes(b":", out, at);
    let at = bytes::put_declared(book, words, LABEL_NAMES, edge.label, out, at);
    let at = bytes::put_bytes(b"]->(", out, at);
    let at = bytes::put_part(query, to, out, at);
    bytes::put_bytes(b")", out, at)
}
