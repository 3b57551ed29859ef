// The services that read texts, and the one that writes a query: each takes its texts and the lent buffers, and answers or refuses. The texts that a
// service needs are read by `prepare`.
#![tactic(auto)]

ghost use Rattle.std.specs.Prelude.{◌≡◌, length};
ghost use Rattle.model.specs.ReadBook.{read_book};
ghost use Rattle.model.specs.Service.{ones, book_service, rules_service, query_service, request_service, writer_service};
ghost use Rattle.model.specs.Answers.{book_of, book_answer, rules_answer, query_answer, request_answer, writer_answer};
ghost use Rattle.model.specs.RequestAnswer.{request_read};
ghost use Rattle.model.specs.WholeAnswers.{query_read};

use model::refusal_numbers::{NO_ROOM, QUERY, QUERY_LINE};
use model::{BookSize, QueryRead, Refusal, RequestRead, RulesSize};
use prepare::{Needs, clear, prepare};
use query::pattern;
use rules_tables::RULES_WORDS;

// Reads a book and answers its counts of nodes, relationships and attribute entries, or a refusal. The working memory ends all ones.
pub fn read_book(book: &[u8], work: &mut [u32]) -> Result<BookSize, Refusal>
    ensures answer { book_answer result ≡ (book_service (length work.old) book.now).answer }
    ensures cleared { work.new ≡ ones (length work.old) }
{
    let needs = Needs {
        rules: false,
        query: false,
        request: false,
    };
    let mut table = [0u32; RULES_WORDS];
    let ready = prepare(needs, book, b"", b"", b"", work, &mut table);
    clear(work);
    ready.request.verdict?;
    let counts = ready.book;
    Ok(BookSize {
        nodes: counts.nodes,
        relationships: counts.relationships,
        entries: counts.entries,
    })
}

// Reads rules and answers their counts of categories and policies, or a refusal. The working memory ends all ones.
pub fn read_rules(book: &[u8], rules: &[u8], work: &mut [u32]) -> Result<RulesSize, Refusal>
    ensures answer { rules_answer result ≡ (rules_service (length work.old) book.now rules.now).answer }
    ensures cleared { work.new ≡ ones (length work.old) }
{
    let needs = Needs {
        rules: true,
        query: false,
        request: false,
    };
    let mut table = [0u32; RULES_WORDS];
    let ready = prepare(needs, book, rules, b"", b"", work, &mut table);
    clear(work);
    ready.request.verdict?;
    let counts = ready.rules;
    Ok(RulesSize {
        categories: counts.categories,
        policies: counts.policies,
    })
}

// Reads a query and answers its pattern, or a refusal beside an empty one. The working memory ends all ones.
pub fn read_query(book: &[u8], query: &[u8], work: &mut [u32]) -> QueryRead
    ensures answer { query_answer (book_of (read_book book.now)) query.now result
        ≡ (query_service (length work.old) book.now query.now).answer }
    ensures whole { result ≡ query_read (length work.old) book.now query.now }
    ensures cleared { work.new ≡ ones (length work.old) }
{
    let needs = Needs {
        rules: false,
        query: true,
        request: false,
    };
    let mut table = [0u32; RULES_WORDS];
    let ready = prepare(needs, book, b"", query, b"", work, &mut table);
    let verdict = ready.request.verdict;
    if let Err(_) = verdict {
        clear(work);
        let pattern = pattern::empty();
        return QueryRead { verdict, pattern };
    }
    let counts = ready.book;
    let pattern = pattern::pattern_of(book, work, counts, query);
    clear(work);
    QueryRead { verdict, pattern }
}

// Reads a request and answers its category and its identities, or a refusal beside none. The working memory ends all ones.
pub fn read_request(book: &[u8], rules: &[u8], request: &[u8], work: &mut [u32]) -> RequestRead
    ensures answer { request_answer request.now result
        ≡ (request_service (length work.old) book.now rules.now request.now).answer }
    ensures whole { result ≡ request_read (length work.old) book.now rules.now request.now }
    ensures cleared { work.new ≡ ones (length work.old) }
{
    let needs = Needs {
        rules: true,
        query: false,
        request: true,
    };
    let mut table = [0u32; RULES_WORDS];
    let ready = prepare(needs, book, rules, b"", request, work, &mut table);
    clear(work);
    ready.request
}

// Writes a query in front of the text buffer and answers its length, or a refusal, which leaves the buffer as it is.
// The working memory ends all ones.
pub fn write_query(
    book: &[u8],
    rules: &[u8],
    query: &[u8],
    text: &mut [u8],
    work: &mut [u32],
) -> Result<usize, Refusal>
    ensures answer { writer_answer result ≡ (writer_service (length work.old) text.old book.now rules.now
        query.now).answer }
    ensures text { text.new ≡ (writer_service (length work.old) text.old book.now rules.now
        query.now).text }
    ensures cleared { work.new ≡ ones (length work.old) }
{
    let needs = Needs {
        rules: true,
        query: true,
        request: false,
    };
    let mut table = [0u32; RULES_WORDS];
    let ready = prepare(needs, book, rules, query, b"", work, &mut table);
    if let Err(refusal) = ready.request.verdict {
        clear(work);
        return Err(refusal);
    }
    let counts = ready.book;
    let pattern = pattern::pattern_of(book, work, counts, query);
    let written = query_writer::write_query(book, work, counts, query, pattern, text);
    clear(work);
    match written {
        Some(length) => Ok(length),
        None => Err(Refusal {
            number: NO_ROOM,
            text: QUERY,
            line: QUERY_LINE,
        }),
    }
}
