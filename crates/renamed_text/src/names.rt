// A word that names a node, and how far the text is put when it has been read.
ghost use Rattle.std.specs.Prelude.{◌≡◌, true, [], ◌∷◌};
ghost use Rattle.book_tables.specs.Fits.{Fits};
ghost use Rattle.renamed_text.specs.Marks.{marked_in};
ghost use Rattle.renamed_text.specs.Progress.{WordAsked, Within, Suffixed, Goes};

use crate::{blocks, words};
use book_tables::{BookCounts, names};

// How far a text has been read and how far it is put, and the place in the buffer behind what is put. What has been read without a `_b` waits to be put,
// so that it is put at once.
#[derive(Clone, Copy)]
pub struct Progress {
    pub seen: usize,
    pub put: usize,
    pub at: usize,
}

// Whether a name is that of a marked node.
fn is_marked(
    text: &[u8],
    words: &[u32],
    counts: BookCounts,
    marked: &[bool; 256],
    name: &[u8],
) -> bool
    requires { Fits text.now words.now counts }
    ensures { result ≡ marked_in text.now words.now counts marked.now name.now }
{
    let node = names::find_node(text, words, counts, name);
    if node < counts.nodes {
        marked[node]
    } else {
        false
    }
}

// Puts what waits, and `_b`.
fn put_suffix(text: &[u8], out: &mut [u8], progress: Progress) -> Progress
    requires { Within text.now progress }
    ensures { Suffixed text.now out.old progress out.new result }
{
    let put = progress.put;
    let seen = progress.seen;
    let at = blocks::put_block(&text[put..seen], out, progress.at);
    Progress {
        seen,
        put: seen,
        at: blocks::put_block(b"_b", out, at),
    }
}

// Reads the next word of the line up to an end, which names a node.
pub fn put_name(
    text: &[u8],
    to: usize,
    words: &[u32],
    counts: BookCounts,
    marked: &[bool; 256],
    out: &mut [u8],
    progress: Progress,
) -> Progress
    requires { WordAsked text.now to words.now counts progress }
    ensures { Goes (marked_in text.now words.now counts marked.now) text.now to
        out.old progress (true ∷ []) out.new result }
{
    let word = words::line_word(text, to, progress.seen);
    let start = word.start;
    let end = word.end;
    let read = Progress {
        seen: end,
        put: progress.put,
        at: progress.at,
    };
    if is_marked(text, words, counts, marked, &text[start..end]) {
        return put_suffix(text, out, read);
    }
    read
}
