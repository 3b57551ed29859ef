// What a loaded book declares: labels, attributes, and which relations and values suit an attribute's type.
ghost use Rattle.std.specs.Prelude.{◌≡◌};
ghost use Rattle.model.specs.Bytes.{Bytes};
ghost use Rattle.model.specs.Names.{mem};
ghost use Rattle.model.specs.Book.{attr_names};
ghost use Rattle.model.specs.Values.{bools};
ghost use Rattle.model.specs.ReadQuery.{has_relation, typed};
ghost use Rattle.model.specs.Answers.{name_at, relation_of, value_of};
ghost use Rattle.text.specs.Parts.{HasPart};
ghost use Rattle.book_tables.specs.View.{book_at, kind_in};
ghost use Rattle.book_tables.specs.Fits.{Fits};
ghost use Rattle.book_tables.specs.Owners.{attrs_of};
ghost use Rattle.query_survey.specs.Suits.{suits};

use crate::AttrSeen;
use book_tables::{BookCounts, Owner, names, owners, values};
use model::limits::MAX_DECLARED;
use model::{Part, Relation, Value};
use text::parts;

// Whether a label is declared.
pub fn label_known(book: &[u8], words: &[u32], counts: BookCounts, s: &[u8], name: Part) -> bool
    requires { Fits book.now words.now counts × HasPart s.now name }
    ensures { result ≡ mem (name_at s.now name) (book_at book.now words.now counts).labels }
{
    let k = names::find_label(book, words, counts, parts::part_of(s, name));
    k < counts.labels
}

// Whether a relation is = or <>, which truth values have; numbers and texts have all six.
fn is_equality(r: Relation) -> bool
    ensures { result ≡ has_relation bools (relation_of r) }
{
    match r {
        Relation::Equal => true,
        Relation::Differs => true,
        Relation::Less => false,
        Relation::AtMost => false,
        Relation::Greater => false,
        Relation::AtLeast => false,
    }
}

// Whether a type has a relation and a value.
fn is_suited(kind: u32, relation: Relation, value: Value) -> bool
    ensures { (s : Bytes) → result ≡ suits (kind_in kind) (relation_of relation) (value_of s value) }
{
    if kind <= values::STR {
        return values::of_kind(kind, value);
    }
    if is_equality(relation) {
        return values::of_kind(kind, value);
    }
    false
}

// Whether an owner's attribute is declared, and with a type that has a relation and a value.
pub fn attr_seen(
    book: &[u8],
    words: &[u32],
    counts: BookCounts,
    owner: Owner,
    s: &[u8],
    name: Part,
    relation: Relation,
    value: Value,
) -> AttrSeen
    requires { Fits book.now words.now counts × HasPart s.now name }
    ensures known { result.known ≡ mem (name_at s.now name)
        (attr_names (attrs_of owner (book_at book.now words.now counts))) }
    ensures typed { result.typed ≡ typed (attrs_of owner (book_at book.now words.now counts)) (name_at s.now name)
        (relation_of relation) (value_of s.now value) }
{
    let tables = owners::tables(counts, owner);
    let offset = tables.attributes;
    let k = names::find_attr(book, words, counts, owner, parts::part_of(s, name));
    if k < tables.declared {
        let typed = is_suited(words[offset + MAX_DECLARED + k], relation, value);
        return AttrSeen { known: true, typed };
    }
    AttrSeen {
        known: false,
        typed: false,
    }
}
