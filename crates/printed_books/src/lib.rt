// What the programs print that write a book, the renaming and the tidy book: the book, or the refusal, in front of a lent buffer.
#![tactic(auto)]

ghost use Rattle.std.specs.Prelude.{◌≡◌, length};
ghost use Rattle.model.specs.Bytes.{Bytes};
ghost use Rattle.model.specs.Refusal.{Outcome};
ghost use Rattle.model.specs.Service.{book_writer};
ghost use Rattle.model.specs.Answers.{writer_answer};
ghost use Rattle.model.specs.Printed.{book_printed, printed_renaming, printed_tidy};
ghost use Rattle.printed_books.specs.Front.{InFront};

use model::Refusal;
use model::limits::{MAX_BOOK_BYTES, WORK_WORDS};

// Puts what the renaming prints for a book in front of a buffer, and answers how long it is. The buffer has as many bytes as a book may have.
pub fn renaming_text(book: &[u8], out: &mut [u8; MAX_BOOK_BYTES]) -> usize
    ensures { InFront (printed_renaming book.now) out.old out.new result }
{
    let mut work = [0u32; WORK_WORDS];
    let written = rename_book::rename_book(book, out, &mut work);
    book_or_refusal(written, out)
}

// The same for the tidy book.
pub fn tidy_text(book: &[u8], out: &mut [u8; MAX_BOOK_BYTES]) -> usize
    ensures { InFront (printed_tidy book.now) out.old out.new result }
{
    let mut work = [0u32; WORK_WORDS];
    let written = tidy_book::tidy_book(book, out, &mut work);
    book_or_refusal(written, out)
}

// A book that was written stands in the buffer; a refusal is put there.
fn book_or_refusal(written: Result<usize, Refusal>, out: &mut [u8; MAX_BOOK_BYTES]) -> usize
    ensures { (o : Outcome Bytes) (buffer : Bytes) → length buffer ≡ 65536 → writer_answer written ≡ (book_writer 16384 buffer o).answer
        → out.old ≡ (book_writer 16384 buffer o).text → InFront (book_printed o) buffer out.new result }
{
    match written {
        Ok(size) => size,
        Err(refusal) => list_lines::put_refusal(refusal, out, 0),
    }
}
