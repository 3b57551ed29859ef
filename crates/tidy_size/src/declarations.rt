// The sizes of the lines that declare attributes and labels.
ghost use Rattle.std.specs.Prelude.{◌+◌, ◌≤◌, ◌<◌, ◌≡◌, length};
ghost use Rattle.model.specs.Tidy.{kind_text};
ghost use Rattle.book_tables.specs.declared.Owner.{Owner};
ghost use Rattle.book_tables.specs.Layout.{types_behind, label_names};
ghost use Rattle.book_tables.specs.View.{kind_in};
ghost use Rattle.book_tables.specs.Fits.{NamesFit};
ghost use Rattle.tidy_size.specs.Pieces.{attr_line, label_line};
ghost use Rattle.tidy_size.specs.Sizes.{LineSize, LinesSize};
ghost use Rattle.tidy_size.specs.Ready.{Named};

use crate::names::name_size;
use book_tables::LABEL_NAMES;
use book_tables::values::STR;
use model::limits::MAX_DECLARED;

// `(vattr  )` and a line feed; `(label )` and a line feed.
const ATTR_LINE: usize = 10;

const LABEL_LINE: usize = 9;

// `int` and `str`; `bool`.
const SHORT_TYPE: usize = 3;

const LONG_TYPE: usize = 4;

// The size of the lines of the attributes declared at an offset, those of nodes or of relationships.
pub fn attrs_size(words: &[u32], offset: usize, count: usize) -> usize
    requires { (offset + types_behind + count ≤ length words.now) × (count ≤ 32) }
    ensures { (owner : Owner) → LinesSize (λ text. NamesFit text words.now offset count)
        (λ text. attr_line owner text words.now offset) count result }
{
    let mut size: usize = 0;
    for i in 0..count {
        size += attr_size(words, offset, i);
    }
    size
}

// The size of one such line.
fn attr_size(words: &[u32], offset: usize, i: usize) -> usize
    requires { offset + types_behind + i < length words.now }
    ensures { (owner : Owner) → LineSize (Named words.now (offset + i)) (λ text. attr_line owner text words.now offset i) result }
{
    ATTR_LINE + name_size(words, offset + i) + type_size(words[offset + MAX_DECLARED + i])
}

// The size of a type.
fn type_size(kind: u32) -> usize
    ensures { result ≡ length (kind_text (kind_in kind)) }
{
    if kind <= STR {
        return SHORT_TYPE;
    }
    LONG_TYPE
}

// The size of the lines of the labels.
pub fn labels_size(words: &[u32], count: usize) -> usize
    requires { (label_names + count ≤ length words.now) × (count ≤ 32) }
    ensures { LinesSize (λ text. NamesFit text words.now label_names count) (λ text. label_line text words.now) count result }
{
    let mut size: usize = 0;
    for i in 0..count {
        size += LABEL_LINE + name_size(words, LABEL_NAMES + i);
    }
    size
}
