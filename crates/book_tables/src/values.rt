// Values in words, and their types.
ghost use Rattle.std.specs.Prelude.{◌≡◌, ◌<◌};
ghost use Rattle.model.specs.Bytes.{Bytes};
ghost use Rattle.model.specs.Values.{of_kind};
ghost use Rattle.model.specs.Answers.{value_of};
ghost use Rattle.book_tables.specs.View.{kind_in};
ghost use Rattle.book_tables.specs.ValueWords.{EndsBefore, Says};

use crate::ValueWords;
use model::Value;

// The types in words. No enum: `of_kind` and `book_lookup::values::kind_of` promise of every word what `kind_in` and `kind_at` say of it.
pub const INT: u32 = 0;

pub const STR: u32 = 1;

pub const BOOL: u32 = 2;

// A whole number is kept in two halves.
pub const HALF: u64 = 4294967296;

// The words of a value. No `From`: it asks that a text ends before its limit.
pub fn value_words(value: Value) -> ValueWords
    requires { EndsBefore 65536 value }
    ensures { Says value result }
{
    match value {
        Value::Number(n) => ValueWords {
            kind: INT,
            first: (n / HALF) as u32,
            second: (n % HALF) as u32,
        },
        Value::Text(start, size) => ValueWords {
            kind: STR,
            first: start as u32,
            second: size as u32,
        },
        Value::Truth(truth) => ValueWords {
            kind: BOOL,
            first: 0,
            second: u32::from(truth),
        },
    }
}

// Whether a value is of a type.
pub fn of_kind(kind: u32, value: Value) -> bool
    ensures { (text : Bytes) → result ≡ of_kind (kind_in kind) (value_of text value) }
{
    match value {
        Value::Number(_) => kind == INT,
        Value::Text(_, _) => kind == STR,
        Value::Truth(_) => STR < kind,
    }
}
