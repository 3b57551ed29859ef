// The vertices, the edges and the Return names of a pattern in words.
ghost use Rattle.std.specs.Prelude.{◌≡◌, [], ◌∷◌};
ghost use Rattle.answer_words.specs.Words.{vertex_row, edge_row, vertex_words, edge_words, return_words};

use crate::rows::{Told, words_of};
use model::limits::MAX_RETURNS;
use model::{Edge, Part, Pattern};

// Start and length of each vertex's name.
const VERTEX_WORDS: usize = 2;

pub const ALL_VERTEX_WORDS: usize = 16;

// Start and length of each edge's name, its label, the vertices it runs from and to.
const EDGE_WORDS: usize = 5;

pub const ALL_EDGE_WORDS: usize = 80;

// A Return name is told in one word, the number of its vertex.
const RETURN_WORDS: usize = 1;

impl Told<VERTEX_WORDS> for Part {
    ghost row_of = { vertex_row };

    fn row(self) -> [usize; VERTEX_WORDS] {
        [self.start, self.length]
    }
}

impl Told<EDGE_WORDS> for Edge {
    ghost row_of = { edge_row };

    fn row(self) -> [usize; EDGE_WORDS] {
        [
            self.name.start,
            self.name.length,
            self.label,
            self.from,
            self.to,
        ]
    }
}

impl Told<RETURN_WORDS> for usize {
    ghost row_of = { λ vertex. vertex ∷ [] };

    fn row(self) -> [usize; RETURN_WORDS] {
        [self]
    }
}

// The words of a pattern's vertices.
pub fn vertex_words(pattern: Pattern) -> [usize; ALL_VERTEX_WORDS]
    ensures { result ≡ vertex_words pattern }
{
    words_of::<_, VERTEX_WORDS, _, _>(pattern.vertices, pattern.counts.vertices)
}

// The words of a pattern's edges.
pub fn edge_words(pattern: Pattern) -> [usize; ALL_EDGE_WORDS]
    ensures { result ≡ edge_words pattern }
{
    words_of::<_, EDGE_WORDS, _, _>(pattern.edges, pattern.counts.edges)
}

// The words of a pattern's Return names.
pub fn return_words(pattern: Pattern) -> [usize; MAX_RETURNS]
    ensures { result ≡ return_words pattern }
{
    words_of::<_, RETURN_WORDS, _, _>(pattern.returns, pattern.counts.returns)
}
