// Telling what the readers of queries and requests answer: their counts and words.
#![tactic(auto)]

ghost use Rattle.telling_words.specs.Told.{QueryTold, RequestTold};

use answer_words::conditions::ALL_CONDITION_WORDS;
use answer_words::identities::{ALL_IDENTITY_WORDS, identity_words};
use answer_words::patterns::{ALL_EDGE_WORDS, ALL_VERTEX_WORDS};
use answer_words::{conditions, patterns};
use model::limits::MAX_RETURNS;
use model::{QueryRead, RequestRead};
use telling::tell;

// Tells what reading a query answers.
pub fn tell_query(
    read: QueryRead,
    vertices: &mut usize,
    edges: &mut usize,
    conditions: &mut usize,
    returns: &mut usize,
    vertex_words: &mut [usize; ALL_VERTEX_WORDS],
    edge_words: &mut [usize; ALL_EDGE_WORDS],
    condition_words: &mut [usize; ALL_CONDITION_WORDS],
    return_words: &mut [usize; MAX_RETURNS],
    number: &mut u32,
    text: &mut u32,
    line: &mut u32,
) -> bool
    ensures { QueryTold read result vertices.new edges.new conditions.new returns.new
        vertex_words.new edge_words.new condition_words.new return_words.new
        number.new text.new line.new }
{
    let pattern = read.pattern;
    *vertices = pattern.counts.vertices;
    *edges = pattern.counts.edges;
    *conditions = pattern.counts.clauses;
    *returns = pattern.counts.returns;
    *vertex_words = patterns::vertex_words(pattern);
    *edge_words = patterns::edge_words(pattern);
    *condition_words = conditions::condition_words(pattern);
    *return_words = patterns::return_words(pattern);
    tell(&read.verdict, number, text, line)
}

// Tells what reading a request answers.
pub fn tell_request(
    read: RequestRead,
    category: &mut usize,
    count: &mut usize,
    identities: &mut [usize; ALL_IDENTITY_WORDS],
    number: &mut u32,
    text: &mut u32,
    line: &mut u32,
) -> bool
    ensures { RequestTold read result category.new count.new identities.new
        number.new text.new line.new }
{
    *category = read.category;
    *count = read.count;
    *identities = identity_words(read);
    tell(&read.verdict, number, text, line)
}
