// A list of a few values, in the order in which they are found.
ghost use Rattle.std.specs.Prelude.{◌≡◌, ◌<◌, ◌+◌, set, replicate};

// At most N values; a place past the count holds a value that says nothing.
#[derive(Clone, Copy)]
pub struct Found<T, const N: usize> {
    pub items: [T; N],
    pub count: usize,
}

impl<T: Copy, const N: usize> Found<T, N> {
    // No value, and this one in each place.
    pub fn none(nothing: T) -> Self
        ensures { result ≡ record { items = replicate N nothing; count = 0 } }
    {
        Found {
            items: [nothing; N],
            count: 0,
        }
    }

    // One value more.
    pub fn push(&mut self, item: T)
        requires { self.old.count < N }
        ensures { self.new ≡ record { items = set self.old.items self.old.count item; count = self.old.count + 1 } }
    {
        self.items[self.count] = item;
        self.count += 1;
    }
}
