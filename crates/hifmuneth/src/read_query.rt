// Reading a query, for programs in other languages.
ghost use Rattle.std.specs.Prelude.{◌≡◌, length};
ghost use Rattle.model.specs.Service.{ones};
ghost use Rattle.model.specs.WholeAnswers.{query_read};
ghost use Rattle.telling_words.specs.Told.{QueryTold};

use answer_words::conditions::ALL_CONDITION_WORDS;
use answer_words::patterns::{ALL_EDGE_WORDS, ALL_VERTEX_WORDS};
use model::limits::MAX_RETURNS;
use telling_words::tell_query;

// Reads a query: true and its pattern, or false and the refusal. Beside the counts each vertex has two words, each edge five, each condition
// seven and each Return name one, as `answer_words/specs/Words.antt` sets out. What does not apply is 0. The working memory ends all ones.
#[unsafe(no_mangle)]
pub extern "C" fn hifmuneth_read_query(
    book: &[u8],
    query: &[u8],
    work: &mut [u32],
    vertices: &mut usize,
    edges: &mut usize,
    conditions: &mut usize,
    returns: &mut usize,
    vertex_words: &mut [usize; ALL_VERTEX_WORDS],
    edge_words: &mut [usize; ALL_EDGE_WORDS],
    condition_words: &mut [usize; ALL_CONDITION_WORDS],
    return_words: &mut [usize; MAX_RETURNS],
    number: &mut u32,
    text: &mut u32,
    line: &mut u32,
) -> bool
    ensures answer { QueryTold (query_read (length work.old) book.now query.now) result vertices.new
        edges.new conditions.new returns.new vertex_words.new edge_words.new
        condition_words.new return_words.new number.new text.new line.new }
    ensures cleared { work.new ≡ ones (length work.old) }
{
    let read = service::read_query(book, query, work);
    tell_query(
        read,
        vertices,
        edges,
        conditions,
        returns,
        vertex_words,
        edge_words,
        condition_words,
        return_words,
        number,
        text,
        line,
    )
}
