// Weaving: one text's pattern after another into the woven pattern, identities, and what is tied to one.
#![tactic(auto)]

ghost use Rattle.woven_tables.specs.Tables.{actors_at, woven_words};
ghost use Rattle.weave.specs.Adding.{no_counts, TextReady, TextAdded, RestReady, RestAdded};
ghost use Rattle.weave.specs.Identities.{identities_in, FinishReady, Finished};
ghost use Rattle.std.specs.Prelude.{◌≡◌, ◌≤◌, length};

use model::limits::{
    MAX_IDENTITIES, MAX_VERTICES, MAX_WOVEN_EDGES, MAX_WOVEN_EXCLUSIONS, MAX_WOVEN_REQUIREMENTS,
    MAX_WOVEN_VERTICES,
};
use model::{Identity, Pattern};
use woven_tables::WovenCounts;

mod identities;
mod marks;
mod ties;

// Weaves the pattern of the kth text into the words, and answers the counts of the woven pattern, or none where it passes a limit
// (12). Text 0 is the query, the others are policies in the order of their categories;
// the names of a pattern stand in its text from a base on; actors are those of the text's own category, names in the rules.
pub fn add_pattern(
    query: &[u8],
    rules: &[u8],
    actors: &[u32],
    actor_count: usize,
    k: usize,
    base: usize,
    pattern: Pattern,
    words: &mut [u32],
    counts: WovenCounts,
) -> Option<WovenCounts>
    requires { TextReady query.now rules.now words.old counts actors.now actor_count k base pattern }
    ensures { TextAdded query.now rules.now (actors_at rules.now actors.now actor_count) k base pattern
        words.old words.new counts result }
{
    let own = pattern.counts;
    let parts = pattern.vertices;
    let numbered = woven_tables::vertices::add_vertices(
        query,
        rules,
        actors,
        actor_count,
        k,
        base,
        parts,
        own.vertices,
        words,
        counts.vertices,
    );
    if MAX_WOVEN_VERTICES < numbered.count {
        return None;
    }
    let clauses = pattern.clauses;
    let exclusions = woven_tables::clauses::count_exclusions(clauses, own.clauses);
    let edge_sum = counts.edges + own.edges;
    let exclusion_sum = counts.exclusions + exclusions;
    let requirement_sum = counts.requirements + (own.clauses - exclusions);
    if MAX_WOVEN_EDGES < edge_sum {
        return None;
    }
    if MAX_WOVEN_EXCLUSIONS < exclusion_sum {
        return None;
    }
    if MAX_WOVEN_REQUIREMENTS < requirement_sum {
        return None;
    }
    let numbers = numbered.numbers;
    let returns = add_rest(k, base, pattern, numbers, words, counts);
    Some(WovenCounts {
        vertices: numbered.count,
        edges: edge_sum,
        exclusions: exclusion_sum,
        requirements: requirement_sum,
        returns,
    })
}

// Weaves the edges and clauses of the kth text, whose vertices have these numbers, and the query's Return; answers how many Return vertices there are.
fn add_rest(
    k: usize,
    base: usize,
    pattern: Pattern,
    numbers: [usize; MAX_VERTICES],
    words: &mut [u32],
    counts: WovenCounts,
) -> usize
    requires { RestReady k base pattern numbers counts × (woven_words ≤ length words.old) }
    ensures { RestAdded k base pattern numbers words.old words.new counts result }
{
    let own = pattern.counts;
    let edges = pattern.edges;
    let clauses = pattern.clauses;
    let before = counts.exclusions + counts.requirements;
    woven_tables::edges::add_edges(k, base, edges, own.edges, numbers, words, counts.edges);
    woven_tables::clauses::add_clauses(
        k,
        base,
        clauses,
        own.clauses,
        numbers,
        counts.edges,
        words,
        before,
    );
    if k == 0 {
        let returns = pattern.returns;
        woven_tables::returns::add_returns(returns, own.returns, numbers, words);
        return own.returns;
    }
    counts.returns
}

// The woven pattern without a text.
pub fn empty() -> WovenCounts
    ensures { result ≡ no_counts }
{
    WovenCounts {
        vertices: 0,
        edges: 0,
        exclusions: 0,
        requirements: 0,
        returns: 0,
    }
}

// Gives the woven vertices the nodes of the request's identities; answers whether every vertex is tied to an identity (else 13).
pub fn finish(
    query: &[u8],
    rules: &[u8],
    request: &[u8],
    identities: [Identity; MAX_IDENTITIES],
    count: usize,
    words: &mut [u32],
    counts: WovenCounts,
) -> bool
    requires { FinishReady query.now rules.now request.now words.old counts identities count }
    ensures { Finished query.now rules.now (identities_in request.now identities count) words.old
        words.new counts result }
{
    let vertices = counts.vertices;
    let given = identities::give_identities(
        query, rules, request, identities, count, words, vertices,
    );
    let tied = ties::tied(words, vertices, counts.edges, given);
    marks::all_marked(tied, vertices)
}
