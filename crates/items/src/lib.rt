// Items and lists of the bracket texts, read by places: what stands at a place, and what follows it.
#![tactic(auto)]

ghost use Rattle.std.specs.Prelude.{◌≡◌};
ghost use Rattle.items.specs.Reads.{end_in, quoted_in, item_in};

pub mod read;

// What the item at a place is, and where it ends. A whole number z is given as z + 2^63.
#[derive(Clone, Copy)]
pub enum ItemEnd {
    Word(usize),
    Number(u64, usize),
    Text(usize),
    Quoted(usize),
    List(usize),
}

impl ItemEnd {
    // Where the item ends.
    pub fn end(self) -> usize
        ensures { result ≡ end_in self }
    {
        match self {
            ItemEnd::Word(q) => q,
            ItemEnd::Number(_, q) => q,
            ItemEnd::Text(q) => q,
            ItemEnd::Quoted(q) => q,
            ItemEnd::List(q) => q,
        }
    }

    // Where the item ends, if it is a policy text.
    pub fn quoted(self) -> Option<usize>
        ensures { result ≡ quoted_in self }
    {
        match self {
            ItemEnd::Quoted(q) => Some(q),
            _ => None,
        }
    }
}

// What follows in a list: an item, told by its place or by what was read of it; or the closing bracket, with the place behind it.
#[derive(Clone, Copy)]
pub enum Next<T> {
    Item(T),
    Close(usize),
}

impl<T> Next<T> {
    // The item, if one follows.
    pub fn item(self) -> Option<T>
        ensures { result ≡ item_in self }
    {
        match self {
            Next::Item(x) => Some(x),
            Next::Close(_) => None,
        }
    }
}
