// The asked pattern: the query and every enforced policy, each with the actors of its own category, woven together.
#![tactic(auto)]

ghost use Rattle.std.specs.Prelude.{◌≤◌, length};
ghost use Rattle.woven_tables.specs.Tables.{woven_words};
ghost use Rattle.book_tables.specs.View.{book_at};
ghost use Rattle.rules_tables.specs.View.{actors_at};
ghost use Rattle.enforce.specs.Ready.{TextsClear, TextReady, AskedReady};
ghost use Rattle.enforce.specs.Woven.{TextWoven, PoliciesWoven, AskedAnswer};

use book_tables::BookCounts;
use model::refusal_numbers::{NOT_TIED, WOVEN_LIMIT_PASSED};
use prepare::Ready;
use query::pattern::pattern_of;
use rules_tables::{ACTORS, CATEGORIES, CATEGORY_WORDS, RulesCounts};
use woven_tables::WovenCounts;

pub mod policies; // policies.rt: the enforced policies, one category after another

// Which text is woven: the number of its category, its own number among the texts, and where it begins in the query or the rules.
#[derive(Clone, Copy)]
pub struct TextPlace {
    pub category: usize,
    pub number: usize,
    pub base: usize,
}

// Weaves the query and the enforced policies of the request's category, and gives the woven vertices the nodes of the request's identities: answers
// the counts of the woven pattern, or the number of its refusal.
pub fn weave_request(
    book: &[u8],
    words: &[u32],
    query: &[u8],
    rules: &[u8],
    rules_words: &[u32],
    request: &[u8],
    ready: Ready,
    woven: &mut [u32],
) -> Result<WovenCounts, u32>
    requires { AskedReady book.now words.now query.now rules.now rules_words.now request.now ready
        × (woven_words ≤ length woven.old) }
    ensures { AskedAnswer book.now words.now query.now rules.now rules_words.now
        request.now ready woven.new result }
{
    let counts = ready.book;
    let rules_counts = ready.rules;
    let read = ready.request;
    let identities = read.identities;
    let Some(shape) = weave_texts(
        book,
        words,
        counts,
        query,
        rules,
        rules_words,
        rules_counts,
        read.category,
        woven,
    ) else {
        return Err(WOVEN_LIMIT_PASSED);
    };
    if weave::finish(query, rules, request, identities, read.count, woven, shape) {
        return Ok(shape);
    }
    Err(NOT_TIED)
}

// Weaves the query and the enforced policies of a category, without identities: answers the counts of the woven pattern, or none where it passes a limit.
pub fn weave_texts(
    book: &[u8],
    words: &[u32],
    counts: BookCounts,
    query: &[u8],
    rules: &[u8],
    rules_words: &[u32],
    rules_counts: RulesCounts,
    category: usize,
    woven: &mut [u32],
) -> Option<WovenCounts>
    requires { TextsClear book.now words.now counts query.now rules.now rules_words.now rules_counts category
        × (woven_words ≤ length woven.old) }
    ensures { PoliciesWoven (book_at book.now words.now counts) counts query.now rules.now
        rules_words.now rules_counts category woven.new result }
{
    let place = TextPlace {
        category,
        number: 0,
        base: 0,
    };
    let alone = weave_text(
        book,
        words,
        counts,
        query,
        query,
        rules,
        rules_words,
        place,
        woven,
        weave::empty(),
    )?;
    policies::weave_policies(
        book,
        words,
        counts,
        query,
        rules,
        rules_words,
        rules_counts,
        category,
        woven,
        alone,
    )
}

// Weaves the pattern of a text, if no limit is passed: its actor vertices are those that are actors of its own category.
pub fn weave_text(
    book: &[u8],
    words: &[u32],
    counts: BookCounts,
    text: &[u8],
    query: &[u8],
    rules: &[u8],
    rules_words: &[u32],
    place: TextPlace,
    woven: &mut [u32],
    shape: WovenCounts,
) -> Option<WovenCounts>
    requires { TextReady book.now words.now counts text.now query.now rules.now rules_words.now place woven.old shape }
    ensures { TextWoven (book_at book.now words.now counts) counts text.now query.now rules.now
        (actors_at rules.now rules_words.now place.category) place woven.old woven.new shape result }
{
    let category = place.category;
    let at = CATEGORIES + CATEGORY_WORDS * category;
    let actor_count = rules_words[at] as usize;
    let actors = &rules_words[at + ACTORS..];
    let pattern = pattern_of(book, words, counts, text);
    weave::add_pattern(
        query,
        rules,
        actors,
        actor_count,
        place.number,
        place.base,
        pattern,
        woven,
        shape,
    )
}
