//! Going through what is read by an index.
ghost use Rattle.std.specs.Prelude.{◌≡◌, ℕ};
ghost use Rattle.std.specs.Iterator.{YieldsFirstBy, item_count};
ghost use Rattle.opentype.specs.Bytes.{Array};
ghost use Rattle.readers.specs.Views.{entries_from};

/// What is read in place by an index, as numbers, records and rules are: it stands for an array, whose entries the items
/// show.
pub trait Indexed {
    type Item;

    ghost Shown: { Type 0 };

    ghost shows: { Self.Item → Shown };

    ghost array: { Self → Array Shown };

    /// How many items there are.
    fn size(&self) -> u32
        ensures { result ≡ (array self.now).count };

    /// Item `index`; past the last, what is read there.
    fn item(&self, index: u32) -> Self::Item
        ensures { shows result ≡ (array self.now).entry index };
}

/// The items of a view from item `at` on, in order.
#[derive(Drop)]
pub struct Each<V> {
    view: V,
    at: u32,
}

impl<V> Each<V> {
    /// All items.
    pub fn of(view: V) -> Self
        ensures view { result.view ≡ view }
        ensures at { result.at ≡ 0 }
    {
        Each { view, at: 0 }
    }
}

impl<V: Indexed + Drop> Iterator for Each<V> {
    type Item = V::Item;

    ghost next_gives = { YieldsFirstBy V.shows (λ s. entries_from s.at (V.array s.view)) };

    ghost remaining = { item_count (λ s. entries_from s.at (V.array s.view)) };

    fn next(&mut self) -> Option<V::Item> {
        if self.at >= self.view.size() {
            return None;
        }
        let item = self.view.item(self.at);
        self.at += 1;
        Some(item)
    }
}
