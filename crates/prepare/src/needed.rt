// Reading a text against the book and the rules, if it is needed.
ghost use Rattle.std.specs.Prelude.{◌≡◌, ◌≤◌, length};
ghost use Rattle.rules_tables.specs.Layout.{all_rules_words};
ghost use Rattle.book_tables.specs.View.{book_at};
ghost use Rattle.book_tables.specs.Fits.{Fits};
ghost use Rattle.rules_tables.specs.Fits.{Fits as RulesFit};
ghost use Rattle.prepare.specs.Texts.{rules_if, query_if};
ghost use Rattle.prepare.specs.Ready.{none_beside, RulesGiven, QueryGiven, RequestGiven};

use book_tables::BookCounts;
use model::limits::MAX_IDENTITIES;
use model::{Identity, Part, Refusal, RequestRead};
use rules_tables::RulesCounts;

// The rules, or none.
pub fn rules(
    needed: bool,
    book: &[u8],
    words: &[u32],
    counts: BookCounts,
    text: &[u8],
    table: &mut [u32],
) -> Result<RulesCounts, Refusal>
    requires { Fits book.now words.now counts × (all_rules_words ≤ length table.old) }
    ensures { RulesGiven text.now table.new
        (rules_if needed (book_at book.now words.now counts) text.now) result }
{
    if needed {
        return rules::load::load(book, words, counts, text, table);
    }
    Ok(RulesCounts {
        categories: 0,
        policies: 0,
    })
}

// Whether the query is accepted.
pub fn query(
    needed: bool,
    book: &[u8],
    words: &[u32],
    counts: BookCounts,
    text: &[u8],
) -> Result<(), Refusal>
    requires { Fits book.now words.now counts }
    ensures { QueryGiven text.now (query_if needed (book_at book.now words.now counts) text.now) result }
{
    if needed {
        return query::read::read(book, words, counts, text);
    }
    Ok(())
}

// The request, or none.
pub fn request(
    needed: bool,
    book: &[u8],
    words: &[u32],
    counts: BookCounts,
    rules: &[u8],
    table: &[u32],
    sizes: RulesCounts,
    text: &[u8],
) -> RequestRead
    requires { Fits book.now words.now counts × RulesFit rules.now table.now sizes }
    ensures { RequestGiven needed book.now words.now counts
        rules.now table.now sizes text.now result }
{
    if needed {
        return request::read::read(book, words, counts, rules, table, sizes, text);
    }
    no_request(Ok(()))
}

// No category and no identity, beside a verdict.
pub fn no_request(verdict: Result<(), Refusal>) -> RequestRead
    ensures { result ≡ none_beside verdict }
{
    let actor = Part {
        start: 0,
        length: 0,
    };
    RequestRead {
        verdict,
        category: 0,
        identities: [Identity { actor, node: 0 }; MAX_IDENTITIES],
        count: 0,
    }
}
