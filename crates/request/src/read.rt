// A whole request: refusals 1 and 2 first, then its one line.
ghost use Rattle.std.specs.Prelude.{◌≡◌};
ghost use Rattle.model.specs.Lines.{lines_of};
ghost use Rattle.model.specs.Request.{one_line};
ghost use Rattle.book_tables.specs.View.{book_at};
ghost use Rattle.book_tables.specs.Fits.{Fits};
ghost use Rattle.rules_tables.specs.View.{rules_at};
ghost use Rattle.rules_tables.specs.Fits.{Fits as RulesFit};
ghost use Rattle.request.specs.RequestReads.{refused_read, Reads, LineReads, RequestReads};

use crate::{forms, stores};
use book_tables::BookCounts;
use model::limits::{MAX_IDENTITIES, MAX_REQUEST_BYTES};
use model::refusal_numbers::{BROKEN, NOT_ALLOWED, NOT_DECLARED, REQUEST, TOO_LONG};
use model::{Refusal, RequestRead};
use rules_tables::{CATEGORY_NAMES, RulesCounts};
use text::{BytesFault, parts};

// A refusal of the request, beside no category and no identities.
fn refused(number: u32, line: u32) -> RequestRead
    ensures { result ≡ refused_read number line }
{
    RequestRead {
        verdict: Err(Refusal {
            number,
            text: REQUEST,
            line,
        }),
        category: 0,
        identities: [stores::NONE; MAX_IDENTITIES],
        count: 0,
    }
}

// Reads the first line of a request, which ends in a line feed.
fn read_line(
    book: &[u8],
    words: &[u32],
    counts: BookCounts,
    rules: &[u8],
    table: &[u32],
    sizes: RulesCounts,
    s: &[u8],
) -> RequestRead
    requires { Fits book.now words.now counts × RulesFit rules.now table.now sizes }
    ensures { LineReads book.now words.now counts rules.now table.now sizes s.now result }
{
    let Some(name) = forms::request_form(s) else {
        return refused(BROKEN, 1);
    };
    let category = parts::part_of(s, name);
    let k = book_tables::names::find_name(rules, table, CATEGORY_NAMES, sizes.categories, category);
    if sizes.categories <= k {
        return refused(NOT_DECLARED, 1);
    }
    let end = name.start + name.length;
    match stores::identities(book, words, counts, rules, table, sizes, k, s, end) {
        Ok(given) => {
            let list = given.list;
            RequestRead {
                verdict: Ok(()),
                category: k,
                identities: list,
                count: given.count,
            }
        }
        Err(fault) => refused(fault, 1),
    }
}

// Reads the one line of a request: 3 where there is none, where it has no line feed, and on line 2 where a second follows.
fn read_one(
    book: &[u8],
    words: &[u32],
    counts: BookCounts,
    rules: &[u8],
    table: &[u32],
    sizes: RulesCounts,
    text: &[u8],
) -> RequestRead
    requires { Fits book.now words.now counts × RulesFit rules.now table.now sizes }
    ensures { Reads counts.nodes rules.now table.now sizes.categories text.now
        (one_line (book_at book.now words.now counts) (rules_at rules.now table.now sizes)
        (lines_of text.now)) result }
{
    let to = text::lines::line_end(text, 0);
    if text.len() <= to {
        return refused(BROKEN, 1);
    }
    let first = read_line(book, words, counts, rules, table, sizes, &text[0..to]);
    let verdict = first.verdict;
    match verdict {
        Err(_) => first,
        Ok(()) => {
            if to + 1 < text.len() {
                return refused(BROKEN, 2);
            }
            first
        }
    }
}

// Reads a request for the book that `words` and `counts` hold and the rules that `table` and `sizes` hold.
pub fn read(
    book: &[u8],
    words: &[u32],
    counts: BookCounts,
    rules: &[u8],
    table: &[u32],
    sizes: RulesCounts,
    text: &[u8],
) -> RequestRead
    requires { Fits book.now words.now counts × RulesFit rules.now table.now sizes }
    ensures { RequestReads book.now words.now counts rules.now table.now sizes text.now result }
{
    match text::lines::bytes_read(text, MAX_REQUEST_BYTES) {
        Err(BytesFault::TooLong) => refused(TOO_LONG, 0),
        Err(BytesFault::BadLine(line)) => refused(NOT_ALLOWED, line as u32),
        Ok(()) => read_one(book, words, counts, rules, table, sizes, text),
    }
}
