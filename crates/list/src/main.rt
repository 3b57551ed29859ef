// The list program: reads book.txt, rules.txt, query.txt and request.txt in the current folder, and prints the list of their rows, or the refusal.
// A file that cannot be read to its end is told on standard error, and no list is printed; so is an output that does not take the whole list.
#![tactic(auto)]

ghost use Rattle.std.specs.Prelude.{OnOk};
ghost use Rattle.std.specs.Io.KnownBytes.{Appends};
ghost use Rattle.model.specs.Printed.{printed};

use anyhow::Context;
use printed::LIST_BYTES;
use program_io::files;
use program_io::files::{BOOK_ROOM, QUERY_ROOM, REQUEST_ROOM, RULES_ROOM};
use std::io;
use std::io::Write;

fn main(rt: HostRuntime) -> anyhow::Result<()> {
    let mut book = [0u8; BOOK_ROOM];
    let mut rules = [0u8; RULES_ROOM];
    let mut query = [0u8; QUERY_ROOM];
    let mut request = [0u8; REQUEST_ROOM];
    let read = files::read_texts(&rt, &mut book, &mut rules, &mut query, &mut request);
    if read.whole {
        print_list(
            &mut io::writer(&rt),
            &book[..read.book],
            &rules[..read.rules],
            &query[..read.query],
            &request[..read.request],
        )
        .context("standard output")?;
    }
    Ok(())
}

// Prints the list of four texts, or the refusal.
fn print_list<W: Write>(
    out: &mut W,
    book: &[u8],
    rules: &[u8],
    query: &[u8],
    request: &[u8],
) -> io::Result<()>
    ensures { OnOk result (Appends (W.contents out.old) (W.contents out.new) (printed book.now rules.now query.now request.now)) }
{
    let mut text: [u8; LIST_BYTES] = program_io::room();
    let length = printed::list_text(book, rules, query, request, &mut text);
    program_io::print_front(out, &text, length)
}
