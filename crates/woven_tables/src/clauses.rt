// Weaving the exclusions and requirements of one text: each is kept, in the text's order, with woven numbers.
ghost use Rattle.std.specs.Prelude.{◌≡◌, ◌+◌, ◌*◌, ◌<◌, ◌≤◌, length};
ghost use Rattle.woven_tables.specs.Tables.{woven_words};
ghost use Rattle.model.specs.PlainData.{ValueFits, RequirementFits};
ghost use Rattle.woven_tables.specs.ClauseSteps.{ValueSaid, RequirementSaid, ConditionReady, ClauseSaid, ClausesReady, ClausesAdded};
ghost use Rattle.woven_tables.specs.ClauseSteps.{one_if_excluded, ExclusionsCounted};

use crate::{CLAUSE_WORDS, CLAUSES};
use book_tables::values::HALF;
use model::limits::{MAX_CONDITIONS, MAX_VERTICES};
use model::{Clause, Condition, Requirement, Value};

// The first word of a clause: kind, value's kind, relation, attribute, owner and text's number, each times its unit.
pub const VALUE_UNIT: usize = 4;

pub const RELATION_UNIT: usize = 16;

pub const ATTRIBUTE_UNIT: usize = 128;

pub const OWNER_UNIT: usize = 4096;

pub const TEXT_UNIT: usize = 262144;

// The kinds of clauses; those past OF_VERTEX are requirements of an edge.
pub const EXCLUSION: u32 = 0;

pub const OF_VERTEX: usize = 1;

const OF_EDGE: usize = 2;

// A value in words: 0, a whole number in two halves; 1, a text by its start and length; 2, a truth value.
#[derive(Clone, Copy)]
struct ClauseValue {
    kind: usize,
    high: u32,
    low: u32,
}

// A clause in words.
#[derive(Clone, Copy)]
struct ClauseWords {
    what: u32,
    high: u32,
    low: u32,
}

// The words of a value; its text stands from a base on. No `From`: it takes the base, and asks that the value fits.
fn value_words(base: usize, value: Value) -> ClauseValue
    requires { ValueFits base value }
    ensures { ValueSaid base value result }
{
    match value {
        Value::Number(n) => ClauseValue {
            kind: 0,
            high: (n / HALF) as u32,
            low: (n % HALF) as u32,
        },
        Value::Text(start, length) => ClauseValue {
            kind: 1,
            high: (base + start) as u32,
            low: length as u32,
        },
        Value::Truth(t) => ClauseValue {
            kind: 2,
            high: 0,
            low: u32::from(t),
        },
    }
}

// The words of a requirement of the kth text, of a vertex or an edge by its woven number; its relation is told by its place in the enum.
fn requirement_words(
    k: usize,
    base: usize,
    kind: usize,
    owner: usize,
    requirement: Requirement,
) -> ClauseWords
    requires { (k < 32) × (kind < 4) × (owner < 64) × RequirementFits base requirement }
    ensures { RequirementSaid k base kind owner requirement result }
{
    let relation = requirement.relation;
    let value = requirement.value;
    let words = value_words(base, value);
    let what = k * TEXT_UNIT
        + owner * OWNER_UNIT
        + requirement.attribute * ATTRIBUTE_UNIT
        + relation as usize * RELATION_UNIT
        + words.kind * VALUE_UNIT
        + kind;
    ClauseWords {
        what: what as u32,
        high: words.high,
        low: words.low,
    }
}

// The words of an exclusion or a requirement of the kth text, whose vertices have these numbers; so many edges were woven before.
fn clause_words(
    k: usize,
    base: usize,
    condition: Condition,
    numbers: [usize; MAX_VERTICES],
    before: usize,
) -> ClauseWords
    requires { (k < 32) × ConditionReady base numbers before condition }
    ensures { ClauseSaid k base numbers before condition result }
{
    match condition {
        Condition::Excluded(u, v) => ClauseWords {
            what: EXCLUSION,
            high: numbers[u] as u32,
            low: numbers[v] as u32,
        },
        Condition::OfVertex(v, requirement) => {
            requirement_words(k, base, OF_VERTEX, numbers[v], requirement)
        }
        Condition::OfEdge(e, requirement) => {
            requirement_words(k, base, OF_EDGE, before + e, requirement)
        }
    }
}

// Weaves the exclusions and requirements of the kth text.
pub fn add_clauses(
    k: usize,
    base: usize,
    clauses: [Clause; MAX_CONDITIONS],
    count: usize,
    numbers: [usize; MAX_VERTICES],
    before: usize,
    words: &mut [u32],
    woven: usize,
)
    requires { ClausesReady base k clauses count numbers before woven × (woven_words ≤ length words.old) }
    ensures { ClausesAdded base k clauses count numbers before words.old words.new woven }
{
    for i in 0..count {
        let c = clauses[i];
        let condition = c.condition;
        let said = clause_words(k, base, condition, numbers, before);
        let at = CLAUSES + CLAUSE_WORDS * (woven + i);
        words[at] = said.what;
        words[at + 1] = said.high;
        words[at + 2] = said.low;
    }
}

// How many exclusions there are among the first clauses of a text.
pub fn count_exclusions(clauses: [Clause; MAX_CONDITIONS], count: usize) -> usize
    requires { count ≤ 32 }
    ensures { ExclusionsCounted clauses count result }
{
    let mut n = 0;
    for i in 0..count {
        let c = clauses[i];
        let condition = c.condition;
        n += one_if_excluded(condition);
    }
    n
}

// 1 for an exclusion, 0 for a requirement.
fn one_if_excluded(condition: Condition) -> usize
    ensures { result ≡ one_if_excluded condition }
{
    match condition {
        Condition::Excluded(_, _) => 1,
        Condition::OfVertex(_, _) => 0,
        Condition::OfEdge(_, _) => 0,
    }
}
