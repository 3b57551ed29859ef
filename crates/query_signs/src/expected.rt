// A mark, a name, a relation or a value that is expected next.
ghost use Rattle.std.specs.Prelude.{◌≡◌, ◌<◌};
ghost use Rattle.text.specs.Parts.{HasPart};
ghost use Rattle.query_signs.specs.Expected.{code_of, MarkNext, NameNext, RelationNext, ValueNext, relation_or, truth_or};

use crate::{Sign, kinds, marks, reading};
use model::{Part, Relation, Value};
use text::{bytes, parts, words};

// The place behind a mark that is expected next. Its bytes decide, but for a minus before a digit: that is a number.
pub fn mark_next(s: &[u8], from: usize, chain: bool, close: bool, code: usize) -> Option<usize>
    requires { 0 < code }
    ensures { MarkNext chain close s.now from code result }
{
    let at = kinds::blanks_end(s, from);
    if s.len() <= at {
        return None;
    }
    let found = marks::mark_at(s, at, chain)?;
    if found != code {
        return None;
    }
    if kinds::starts_number(s, at) {
        return None;
    }
    Some(at + marks::mark_size(code))
}

// The name that is expected next. Its first byte decides: a word begins with a letter, and no other sign does.
pub fn name_next(s: &[u8], from: usize, chain: bool, close: bool) -> Option<(Part, usize)>
    ensures { NameNext chain close s.now from result }
{
    let at = kinds::blanks_end(s, from);
    if !bytes::is_letter(bytes::peek(s, at)) {
        return None;
    }
    let q = words::word(s, at)?;
    if kinds::touches(close, from, at) {
        return None;
    }
    if compare::is_query_name(&s[at..q]) {
        return Some((
            Part {
                start: at,
                length: q - at,
            },
            q,
        ));
    }
    None
}

// The relation that a sign is, and the place behind it.
#[tactic(auto, using(crate::proofs::ExpectLaws::no_code), unfolding(crate::specs::Expected::relation_or, crate::specs::Expected::code_of))]
fn relation_or(t: Sign, q: usize) -> Option<(Relation, usize)>
    ensures { result ≡ relation_or (code_of t) q }
{
    let Sign::Mark(code) = t else {
        return None;
    };
    match code {
        marks::EQUAL => Some((Relation::Equal, q)),
        marks::DIFFERS => Some((Relation::Differs, q)),
        marks::LESS => Some((Relation::Less, q)),
        marks::AT_MOST => Some((Relation::AtMost, q)),
        marks::GREATER => Some((Relation::Greater, q)),
        marks::AT_LEAST => Some((Relation::AtLeast, q)),
        _ => None,
    }
}

// The relation that is expected next, behind a chain.
pub fn relation_next(s: &[u8], from: usize, close: bool) -> Option<(Relation, usize)>
    ensures { RelationNext close s.now from result }
{
    let (t, q) = reading::next_sign(s, from, false, close)?;
    relation_or(t, q)
}

// True or false, and the place behind it.
fn truth_or(s: &[u8], p: Part, q: usize) -> Option<(Value, usize, bool)>
    requires { HasPart s.now p }
    ensures { result ≡ truth_or s.now p q }
{
    let word = parts::part_of(s, p);
    if compare::same_bytes(word, b"true") {
        return Some((Value::Truth(true), q, true));
    }
    if compare::same_bytes(word, b"false") {
        return Some((Value::Truth(false), q, true));
    }
    None
}

// The value that is expected next, behind a chain.
pub fn value_next(s: &[u8], from: usize, close: bool) -> Option<(Value, usize, bool)>
    ensures { ValueNext close s.now from result }
{
    let (t, q) = reading::next_sign(s, from, false, close)?;
    match t {
        Sign::Word(p) => truth_or(s, p, q),
        Sign::Whole(n) => Some((Value::Number(n), q, true)),
        Sign::Text(p) => Some((Value::Text(p.start, p.length), q, false)),
        Sign::Mark(_) => None,
    }
}
