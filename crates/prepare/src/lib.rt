// What every service starts with, the texts that it needs, read in the paper's order, or the first refusal; and what it ends with, a memory of all ones.
#![tactic(auto)]

ghost use Rattle.std.specs.Prelude.{◌≡◌, length};
ghost use Rattle.model.specs.Refusal.{accepted};
ghost use Rattle.model.specs.ReadBook.{read_book};
ghost use Rattle.model.specs.Service.{ones};
ghost use Rattle.book_tables.specs.View.{book_at};
ghost use Rattle.book_tables.specs.Fits.{Fits};
ghost use Rattle.rules_tables.specs.View.{rules_at};
ghost use Rattle.prepare.specs.Texts.{through, after_book, after_rules};
ghost use Rattle.prepare.specs.Ready.{refused_ready, Prepared, RulesReady};

use book_tables::BookCounts;
use model::limits::WORK_WORDS;
use model::refusal_numbers::TOO_LITTLE;
use model::{Refusal, RequestRead};
use rules_tables::{RULES_WORDS, RulesCounts};

mod needed; // needed.rt: reading a text, if it is needed

// Which texts a service needs besides the book. A text that is not needed is not read.
#[derive(Clone, Copy)]
pub struct Needs {
    pub rules: bool,
    pub query: bool,
    pub request: bool,
}

// What is ready: the counts of the tables in which book and rules stand, and the request; its verdict is that of all texts that are needed.
#[derive(Clone, Copy)]
pub struct Ready {
    pub book: BookCounts,
    pub rules: RulesCounts,
    pub request: RequestRead,
}

// Reads the texts that are needed, the book into the working memory and the rules into a table.
pub fn prepare(
    needs: Needs,
    book: &[u8],
    rules: &[u8],
    query: &[u8],
    request: &[u8],
    work: &mut [u32],
    table: &mut [u32; RULES_WORDS],
) -> Ready
    ensures { Prepared needs book.now rules.now query.now request.now
        work.new table.new
        (through needs (length work.old) book.now rules.now query.now request.now accepted) result }
{
    if work.len() < WORK_WORDS {
        return refused(Refusal {
            number: TOO_LITTLE,
            text: 0,
            line: 0,
        });
    }
    match book::load::load(book, work) {
        Ok(counts) => {
            return after_book(needs, book, work, counts, rules, query, request, table);
        }
        Err(refusal) => {
            return refused(refusal);
        }
    }
}

// The working memory ends all ones.
pub fn clear(work: &mut [u32])
    ensures { work.new ≡ ones (length work.old) }
{
    fill::fill(work, 0);
}

// A text is refused, and nothing is ready.
fn refused(refusal: Refusal) -> Ready
    ensures { result ≡ refused_ready refusal }
{
    let book = book_tables::no_counts();
    let rules = RulesCounts {
        categories: 0,
        policies: 0,
    };
    let request = needed::no_request(Err(refusal));
    Ready {
        book,
        rules,
        request,
    }
}

// The book being read: the rules, then the other texts.
fn after_book(
    needs: Needs,
    book: &[u8],
    words: &[u32],
    counts: BookCounts,
    rules: &[u8],
    query: &[u8],
    request: &[u8],
    table: &mut [u32; RULES_WORDS],
) -> Ready
    requires { Fits book.now words.now counts × (read_book book.now ≡ accepted (book_at book.now words.now counts)) }
    ensures { Prepared needs book.now rules.now query.now request.now
        words.now table.new
        (after_book needs rules.now query.now request.now
        (book_at book.now words.now counts) accepted) result }
{
    match needed::rules(needs.rules, book, words, counts, rules, table) {
        Ok(sizes) => {
            return after_rules(
                needs, book, words, counts, rules, table, sizes, query, request,
            );
        }
        Err(refusal) => {
            return refused(refusal);
        }
    }
}

// The rules being read: the query, then the request.
fn after_rules(
    needs: Needs,
    book: &[u8],
    words: &[u32],
    counts: BookCounts,
    rules: &[u8],
    table: &[u32],
    sizes: RulesCounts,
    query: &[u8],
    text: &[u8],
) -> Ready
    requires { RulesReady needs.rules book.now words.now counts rules.now table.now sizes }
    ensures { Prepared needs book.now rules.now query.now text.now
        words.now table.now
        (after_rules needs query.now text.now (book_at book.now words.now counts)
        (rules_at rules.now table.now sizes) accepted) result }
{
    if let Err(refusal) = needed::query(needs.query, book, words, counts, query) {
        return refused(refusal);
    }
    let request = needed::request(
        needs.request,
        book,
        words,
        counts,
        rules,
        table,
        sizes,
        text,
    );
    Ready {
        book: counts,
        rules: sizes,
        request,
    }
}
