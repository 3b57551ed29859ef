// The lamp program: reads book.txt, rules.txt, query.txt and request.txt in the current folder, and prints whether their list has a row, or the refusal.
// A file that cannot be read to its end is told on standard error, and nothing is printed; so is an output that does not take the whole line.
#![tactic(auto)]

ghost use Rattle.std.specs.Prelude.{OnOk};
ghost use Rattle.std.specs.Io.KnownBytes.{Appends};
ghost use Rattle.model.specs.Printed.{printed_lamp};

use anyhow::Context;
use printed_lamp::LAMP_BYTES;
use program_io::files;
use program_io::files::{BOOK_ROOM, QUERY_ROOM, REQUEST_ROOM, RULES_ROOM};
use std::io;
use std::io::Write;

fn main(rt: HostRuntime) -> anyhow::Result<()> {
    let mut book = [0u8; BOOK_ROOM];
    let mut rules = [0u8; RULES_ROOM];
    let mut query = [0u8; QUERY_ROOM];
    let mut request = [0u8; REQUEST_ROOM];
    let read = files::read_texts(&rt, &mut book, &mut rules, &mut query, &mut request);
    if read.whole {
        print_lamp(
            &mut io::writer(&rt),
            &book[..read.book],
            &rules[..read.rules],
            &query[..read.query],
            &request[..read.request],
        )
        .context("standard output")?;
    }
    Ok(())
}

// Prints yes, no or the refusal.
fn print_lamp<W: Write>(
    out: &mut W,
    book: &[u8],
    rules: &[u8],
    query: &[u8],
    request: &[u8],
) -> io::Result<()>
    ensures { OnOk result (Appends (W.contents out.old) (W.contents out.new) (printed_lamp book.now rules.now query.now request.now)) }
{
    let mut text = [0u8; LAMP_BYTES];
    let length = printed_lamp::lamp_text(book, rules, query, request, &mut text);
    program_io::print_front(out, &text, length)
}
