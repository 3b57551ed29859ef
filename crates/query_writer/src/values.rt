// Putting values and relations.
ghost use Rattle.std.specs.Prelude.{length};
ghost use Rattle.model.specs.Answers.{relation_of, value_of};
ghost use Rattle.model.specs.PlainData.{ValueWithin};
ghost use Rattle.model.specs.Writing.{value_text, relation_text};
ghost use Rattle.putting.specs.Putting.{Puts};

use model::{Relation, Value};
use putting::{bytes, values};

// Puts a value, whose text stands in the query's.
pub fn put_value(query: &[u8], value: Value, out: &mut [u8], at: usize) -> usize
    requires { ValueWithin (length query.now) value }
    ensures { Puts out.old at (value_text (value_of query.now value)) out.new result }
{
    match value {
        Value::Number(n) => values::put_whole(n, out, at),
        Value::Text(start, length) => values::put_quoted(query, start, length, out, at),
        Value::Truth(t) => values::put_truth(t, out, at),
    }
}

// Puts a relation.
pub fn put_relation(relation: Relation, out: &mut [u8], at: usize) -> usize
    ensures { Puts out.old at (relation_text (relation_of relation)) out.new result }
{
    match relation {
        Relation::Equal => bytes::put_bytes(b"=", out, at),
        Relation::Differs => bytes::put_bytes(b"<>", out, at),
        Relation::Less => bytes::put_bytes(b"<", out, at),
        Relation::AtMost => bytes::put_bytes(b"<=", out, at),
        Relation::Greater => bytes::put_bytes(b">", out, at),
        Relation::AtLeast => bytes::put_bytes(b">=", out, at),
    }
}
