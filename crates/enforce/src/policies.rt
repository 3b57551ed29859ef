// Weaving the enforced policies: those of the request's category and of all it is over, in the order of the categories.
ghost use Rattle.book_tables.specs.View.{book_at};
ghost use Rattle.enforce.specs.Ready.{CategoryReady, PoliciesReady};
ghost use Rattle.enforce.specs.Woven.{CategoryWoven, PoliciesWoven};

use crate::{TextPlace, weave_text};
use book_tables::BookCounts;
use rules_tables::policies::policy_place;
use rules_tables::{CATEGORIES, CATEGORY_WORDS, LOWER_SET, POLICIES, POLICY_WORDS, RulesCounts};
use woven_tables::WovenCounts;

// Weaves the enforced policies behind the query, if no limit is passed.
pub fn weave_policies(
    book: &[u8],
    words: &[u32],
    counts: BookCounts,
    query: &[u8],
    rules: &[u8],
    rules_words: &[u32],
    rules_counts: RulesCounts,
    category: usize,
    woven: &mut [u32],
    alone: WovenCounts,
) -> Option<WovenCounts>
    requires { PoliciesReady book.now words.now counts query.now rules.now rules_words.now rules_counts category woven.old alone }
    ensures { PoliciesWoven (book_at book.now words.now counts) counts query.now rules.now
        rules_words.now rules_counts category woven.new result }
{
    let categories = rules_counts.categories;
    let mut texts = 1;
    let mut shape = alone;
    for lower in 0..categories {
        let (more, next) = weave_category(
            book,
            words,
            counts,
            query,
            rules,
            rules_words,
            rules_counts,
            category,
            lower,
            texts,
            woven,
            shape,
        )?;
        texts = more;
        shape = next;
    }
    Some(shape)
}

// Weaves the policy of one category, if the request's category is it or is over it, and it has a policy: answers how many texts are woven, and the
// counts of their woven pattern, or none where it passes a limit.
fn weave_category(
    book: &[u8],
    words: &[u32],
    counts: BookCounts,
    query: &[u8],
    rules: &[u8],
    rules_words: &[u32],
    rules_counts: RulesCounts,
    category: usize,
    lower: usize,
    texts: usize,
    woven: &mut [u32],
    shape: WovenCounts,
) -> Option<(usize, WovenCounts)>
    requires { CategoryReady book.now words.now counts query.now rules.now rules_words.now rules_counts category lower texts
        woven.old shape }
    ensures { CategoryWoven (book_at book.now words.now counts) counts query.now rules.now
        rules_words.now rules_counts category lower woven.new result }
{
    let lower_set = rules_words[CATEGORIES + CATEGORY_WORDS * category + LOWER_SET];
    if !bits::has(lower_set, lower) {
        return Some((texts, shape));
    }
    let policy = policy_place(rules_words, rules_counts, lower);
    if rules_counts.policies <= policy {
        return Some((texts, shape));
    }
    let at = POLICIES + POLICY_WORDS * policy;
    let start = rules_words[at + 1] as usize;
    let end = start + rules_words[at + 2] as usize;
    let place = TextPlace {
        category: lower,
        number: texts,
        base: start,
    };
    let next = weave_text(
        book,
        words,
        counts,
        &rules[start..end],
        query,
        rules,
        rules_words,
        place,
        woven,
        shape,
    )?;
    Some((texts + 1, next))
}
