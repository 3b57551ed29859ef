// The conditions of a pattern in words.
ghost use Rattle.std.specs.Prelude.{◌≡◌, ◌<◌};
ghost use Rattle.answer_words.specs.Words.{value_row, requirement_row, condition_row, condition_words};

use crate::rows::{Told, words_of};
use model::{Clause, Condition, Pattern, Requirement, Value};

// Which condition it is, the first vertex or the owner, the second vertex or the attribute, the relation, the value's type and its two words.
const CONDITION_WORDS: usize = 7;

pub const ALL_CONDITION_WORDS: usize = 224;

// A value's type and its two words.
const VALUE_WORDS: usize = 3;

// Which condition it is.
const EXCLUDED: usize = 1;

const OF_VERTEX: usize = 2;

const OF_EDGE: usize = 3;

// The types of values.
const NUMBER: usize = 1;

const TEXT: usize = 2;

const TRUTH: usize = 3;

impl Told<CONDITION_WORDS> for Clause {
    ghost row_of = { λ clause. condition_row clause.condition };

    fn row(self) -> [usize; CONDITION_WORDS] {
        match self.condition {
            Condition::Excluded(u, v) => [EXCLUDED, u, v, 0, 0, 0, 0],
            Condition::OfVertex(vertex, requirement) => requirement_row(
                OF_VERTEX,
                vertex,
                requirement,
            ),
            Condition::OfEdge(edge, requirement) => requirement_row(OF_EDGE, edge, requirement),
        }
    }
}

// The words of a pattern's conditions.
pub fn condition_words(pattern: Pattern) -> [usize; ALL_CONDITION_WORDS]
    ensures { result ≡ condition_words pattern }
{
    words_of::<_, CONDITION_WORDS, _, _>(pattern.clauses, pattern.counts.clauses)
}

// The words of a requirement, its relation being told by its place in the enum.
fn requirement_row(kind: usize, owner: usize, requirement: Requirement) -> [usize; CONDITION_WORDS]
    ensures { result ≡ requirement_row kind owner requirement }
{
    let relation = requirement.relation;
    let value = requirement.value;
    let number = 1 + relation as usize;
    let row = value_row(value);
    [
        kind,
        owner,
        requirement.attribute,
        number,
        row[0],
        row[1],
        row[2],
    ]
}

// The words of a value. No `From`: neither a value nor an array is a type of this crate.
fn value_row(value: Value) -> [usize; VALUE_WORDS]
    ensures { result ≡ value_row value }
{
    match value {
        Value::Number(n) => [NUMBER, n as usize, 0],
        Value::Text(start, size) => [TEXT, start, size],
        Value::Truth(truth) => [TRUTH, usize::from(truth), 0],
    }
}
