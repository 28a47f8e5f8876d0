//! The search of coverage and class tables, one text over record kinds.
ghost use Rattle.std.specs.Prelude.{◌≡◌, ℕ, IfSome};
ghost use Rattle.opentype.specs.Search.{FindsExactly, Holds, searched};

/// Records that each span the glyphs from a start to an end.
pub trait Ranges {
    ghost size: { Self → ℕ };

    ghost starts: { Self → ℕ → ℕ };

    ghost ends: { Self → ℕ → ℕ };

    /// How many records there are.
    fn len(&self) -> u32
        ensures { result ≡ size self.now };

    /// The first and the last glyph of record `index`.
    fn bounds(&self, index: u32) -> (u32, u32)
        ensures start { result.0 ≡ starts self.now index }
        ensures end { result.1 ≡ ends self.now index };
}

/// The record that the search finds for `glyph`. Whatever it finds holds the glyph; where the records are in order, it
/// finds the one that does.
pub fn find<R: Ranges>(ranges: &R, glyph: u32) -> Option<u32>
    ensures answer { let s = ranges.now in result ≡ searched (R.Ranges.starts s) (R.Ranges.ends s) (R.Ranges.size s) glyph }
    ensures holds { let s = ranges.now in IfSome result (Holds (R.Ranges.starts s) (R.Ranges.ends s) (R.Ranges.size s) glyph) }
    ensures order { let s = ranges.now in FindsExactly (R.Ranges.starts s) (R.Ranges.ends s) (R.Ranges.size s) glyph result }
{
    // The entries lie in a font's bytes: there is no slice of them for the library's search.
    let mut low: u32 = 0;
    let mut high = ranges.len();
    while low < high {
        let mid = low + (high - low) / 2;
        let (start, end) = ranges.bounds(mid);
        if end < glyph {
            low = mid + 1;
        } else if glyph < start {
            high = mid;
        } else {
            return Some(mid);
        }
    }
    None
}
