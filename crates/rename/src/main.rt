// The renaming program: reads book.txt in the current folder, and prints the book with its new names, or the refusal alone.
// A file that cannot be read to its end is told on standard error, and no book is printed; so is an output that does not take the whole book.
#![tactic(auto)]

ghost use Rattle.std.specs.Prelude.{OnOk};
ghost use Rattle.std.specs.Io.KnownBytes.{Appends};
ghost use Rattle.model.specs.Printed.{printed_renaming};

use anyhow::Context;
use model::limits::MAX_BOOK_BYTES;
use program_io::files;
use program_io::files::BOOK_ROOM;
use std::io;
use std::io::Write;

fn main(rt: HostRuntime) -> anyhow::Result<()> {
    let mut book = [0u8; BOOK_ROOM];
    let book_read = files::read_text(&rt, b"book.txt", &mut book);
    if book_read.whole {
        let book_length = book_read.length;
        print_renaming(&mut io::writer(&rt), &book[..book_length]).context("standard output")?;
    }
    Ok(())
}

// Prints the new book, or the refusal.
fn print_renaming<W: Write>(out: &mut W, book: &[u8]) -> io::Result<()>
    ensures { OnOk result (Appends (W.contents out.old) (W.contents out.new) (printed_renaming book.now)) }
{
    let mut text = [0u8; MAX_BOOK_BYTES];
    let length = printed_books::renaming_text(book, &mut text);
    program_io::print_front(out, &text, length)
}
