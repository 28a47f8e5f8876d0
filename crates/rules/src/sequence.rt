//! Matching a sequence of values to the glyphs of a run, one text for glyphs, classes and coverages.
ghost use Rattle.std.specs.Prelude.{◌≡◌, ◌≤◌, length};
ghost use Rattle.opentype.specs.Matching.{matches_before, matches_from};
ghost use Rattle.readers.specs.Views.{uints_of};

use crate::matching::ValueMatch;
use readers::uints::Uints;
use readers::width::Width;

/// Whether value i matches the glyph at `place` + i, for each of the values.
pub(crate) fn matches_from<W: Width, M: ValueMatch>(
    values: &Uints,
    matcher: &M,
    run: &[u32],
    place: usize,
) -> bool
    requires { place ≤ length run.now }
    ensures { result ≡ matches_from (M.ValueMatch.means matcher.now) (uints_of W.Width.BYTES values.now) run.now place }
{
    let glyphs = &run[place..];
    glyphs.len() >= values.count as usize
        && values
            .iter::<W>()
            .zip(glyphs)
            .all(|(value, glyph)| matcher.matches(value, *glyph))
}

/// Whether value 0 matches the glyph just before `place`, value 1 the one before that, and so outwards.
pub(crate) fn matches_before<W: Width, M: ValueMatch>(
    values: &Uints,
    matcher: &M,
    run: &[u32],
    place: usize,
) -> bool
    requires { place ≤ length run.now }
    ensures { result ≡ matches_before (M.ValueMatch.means matcher.now) (uints_of W.Width.BYTES values.now) run.now place }
{
    if place < values.count as usize {
        return false;
    }
    // By index: over the glyphs turned about, by `zip`, `rev` and `all`, it took more than twice the time.
    for i in 0..values.count {
        if !matcher.matches(values.get::<W>(i), run[place - 1 - i as usize]) {
            return false;
        }
    }
    true
}
