// The text of a book with `_b` behind the marked names wherever they name a node, and the line that declares a node. A line is read by its words alone.
#![tactic(auto)]

ghost use Rattle.std.specs.Prelude.{◌≡◌, ◌&&◌, List};
ghost use Rattle.model.specs.Bytes.{bytes_of, same};
ghost use Rattle.model.specs.Names.{Name};
ghost use Rattle.model.specs.Lines.{lines_of};
ghost use Rattle.model.specs.Book.{node_names};
ghost use Rattle.model.specs.Renaming.{renamed, declared_at, first_word, after_word};
ghost use Rattle.book_tables.specs.View.{book_at};
ghost use Rattle.book_tables.specs.Fits.{Fits};
ghost use Rattle.putting.specs.Putting.{Puts};
ghost use Rattle.renamed_text.specs.Marks.{Marks};

use book_tables::BookCounts;

mod blocks; // blocks.rt: whole texts into a buffer
mod lines; // lines.rt: the words of a line that name a node
mod names; // names.rt: one of them, and how far the text is put
mod words; // words.rt: the words of a line by places

// Puts the text of a book in front of a buffer, `_b` behind each marked name wherever it names a node, and gives the place behind it.
pub fn put_renamed(
    text: &[u8],
    words: &[u32],
    counts: BookCounts,
    marked: &[bool; 256],
    out: &mut [u8],
) -> usize
    requires { Fits text.now words.now counts }
    ensures { (later : List Name) → Marks (node_names (book_at text.now words.now counts)) marked.now later
        → Puts out.old 0 (renamed later text.now) out.new result }
{
    let mut progress = names::Progress {
        seen: 0,
        put: 0,
        at: 0,
    };
    while progress.seen < text.len() {
        progress = lines::put_line(text, words, counts, marked, out, progress);
    }
    let put = progress.put;
    blocks::put_block(&text[put..], out, progress.at)
}

// The line of a text that declares a node of this name, counted from 1; the line behind the last if none does.
pub fn declared_at(text: &[u8], name: &[u8]) -> usize
    ensures { result ≡ declared_at name.now (lines_of text.now) }
{
    let mut at = 0;
    let mut line = 1;
    while at < text.len() {
        let to = text::lines::line_end(text, at);
        if declares(&text[at..to], name) {
            return line;
        }
        at = to + 1;
        line += 1;
    }
    line
}

// Whether the first two words of a line are `node` and the name.
fn declares(line: &[u8], name: &[u8]) -> bool
    ensures { result ≡ (same (first_word line.now) (bytes_of "node") && same (first_word (after_word line.now)) name.now) }
{
    let first = words::first_word(line, 0);
    let start = first.start;
    let end = first.end;
    if compare::same_bytes(&line[start..end], b"node") {
        let second = words::first_word(line, end);
        let start = second.start;
        let end = second.end;
        return compare::same_bytes(&line[start..end], name);
    }
    false
}
