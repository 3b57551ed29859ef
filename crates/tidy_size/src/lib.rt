// How many bytes the tidy text of a loaded book has, by arithmetic alone: no text is written to be counted.
#![tactic(auto)]

ghost use Rattle.std.specs.Prelude.{◌≡◌, length};
ghost use Rattle.model.specs.Bytes.{Bytes};
ghost use Rattle.model.specs.Tidy.{tidy_text};
ghost use Rattle.book_tables.specs.View.{book_at};
ghost use Rattle.book_tables.specs.Fits.{Fits};
ghost use Rattle.tidy_size.specs.Ready.{SomeText};

use book_tables::{BookCounts, EATTR_NAMES, VATTR_NAMES};
use declarations::{attrs_size, labels_size};
use owners::{nodes_size, rels_size};

mod declarations; // declarations.rt: the lines that declare attributes and labels
mod entries; // entries.rt: entries in the order of their attributes
mod names; // names.rt: names
mod owners; // owners.rt: the lines of nodes and of relationships
mod values; // values.rt: values

// How many bytes the tidy text of a book has.
pub fn tidy_size(words: &[u32], counts: BookCounts) -> usize
    requires { SomeText words.now counts }
    ensures { (text : Bytes) → Fits text words.now counts → result ≡ length (tidy_text (book_at text words.now counts)) }
{
    let vattrs = attrs_size(words, VATTR_NAMES, counts.vattrs);
    let eattrs = attrs_size(words, EATTR_NAMES, counts.eattrs);
    let labels = labels_size(words, counts.labels);
    let nodes = nodes_size(words, counts);
    let rels = rels_size(words, counts);
    vattrs + eattrs + labels + nodes + rels
}
