// The query reader and writer on many texts: book.txt and rules.txt in the folder `queries`, and queries.txt with a query on each line.
// Prints each query, and what the writer writes for it or the refusal. `run`, `print_queries` and `print_query` only print, and no contract can say what
// reached the output.
use program_io::files;
use std::io;
use std::io::Write;
use std::rt::Files;

const BOOK_BYTES: usize = 4096;

const RULES_BYTES: usize = 4096;

const QUERIES_BYTES: usize = 65536;

// Prints every query with its answer.
pub fn run(rt: &(impl Files + Eprint), out: &mut impl Write) -> io::Result<()> {
    let mut book = [0u8; BOOK_BYTES];
    let mut rules = [0u8; RULES_BYTES];
    let mut queries = [0u8; QUERIES_BYTES];
    let book_length = files::read_text(rt, b"queries/book.txt", &mut book).length;
    let rules_length = files::read_text(rt, b"queries/rules.txt", &mut rules).length;
    let queries_length = files::read_text(rt, b"queries/queries.txt", &mut queries).length;
    print_queries(
        out,
        &book[..book_length],
        &rules[..rules_length],
        &queries[..queries_length],
    )
}

// Prints the queries, one after another.
fn print_queries(
    out: &mut impl Write,
    book: &[u8],
    rules: &[u8],
    queries: &[u8],
) -> io::Result<()> {
    let mut at = 0;
    while at < queries.len() {
        let to = text::lines::line_end(queries, at);
        print_query(out, book, rules, &queries[at..to])?;
        at = to + 1;
    }
    Ok(())
}

// Prints a query, and what is written for it.
fn print_query(out: &mut impl Write, book: &[u8], rules: &[u8], query: &[u8]) -> io::Result<()> {
    out.write_all(query)?;
    out.write_all(b"\n  ")?;
    print_answers::print_written(out, book, rules, query)
}
