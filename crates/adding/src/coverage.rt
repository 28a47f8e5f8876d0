//! Adding the glyphs of a coverage table to a digest.
ghost use Rattle.std.specs.Prelude.{◌≡◌};
ghost use Rattle.opentype.specs.Filters.{add_coverage};
ghost use Rattle.opentype.specs.Masks.{add_glyph};
ghost use Rattle.opentype.specs.Spans.{add_span};
ghost use Rattle.opentype.specs.Walks.{fold_below};
ghost use Rattle.readers.specs.Views.{uints_of};
ghost use Rattle.tables.specs.Tables.{coverage_of};
ghost use Rattle.tables.specs.Views.{ranges_of};
ghost use Rattle.adding.specs.Walked.{CarriedOut};

use crate::gathering::Gathering;
use crate::stop::Stop;
use digest::set_digest::SetDigest;
use readers::uints::Uints;
use readers::width::Two;
use tables::coverage::Coverage;
use tables::ranges::RangeRecords;
use tables::search::Ranges;

impl Gathering<'_> {
    /// Adds what a coverage table covers, after a draw of its entry count. Where the table is missing any glyph may follow.
    pub fn add_coverage(&mut self, coverage: &Coverage) -> Result<(), Stop>
        ensures { CarriedOut (add_coverage (coverage_of coverage.now)) self.old self.new result }
    {
        match coverage {
            Coverage::Missing => Err(Stop::AnyGlyph),
            Coverage::Glyphs(glyphs) => {
                self.budget.work(u64::from(glyphs.len()))?;
                add_glyphs(glyphs, &mut self.digest);
                Ok(())
            }
            Coverage::Ranges(ranges) => {
                self.budget.work(u64::from(ranges.len()))?;
                add_spans(ranges, &mut self.digest);
                Ok(())
            }
        }
    }
}

/// Adds each glyph of a list.
fn add_glyphs(glyphs: &Uints, digest: &mut SetDigest)
    ensures masks { let all = uints_of 2 glyphs.now in digest.new.masks ≡ fold_below (λ k ms. add_glyph ms (all.entry k)) all.count digest.old.masks }
{
    for glyph in glyphs.iter::<Two>() {
        digest.add(glyph);
    }
}

/// Adds each range as a span. Apart from `add_glyphs`: one line over another view, by another call.
#[tactic(auto, using(opentype::proofs::Sums::sums_fit))]
fn add_spans(ranges: &RangeRecords, digest: &mut SetDigest)
    ensures masks { let all = ranges_of ranges.now in digest.new.masks ≡ fold_below (λ k ms. add_span ms (all.start k) (all.end k)) all.count digest.old.masks }
{
    for range in ranges.iter() {
        // The sums by which a span is added always fit.
        digest.add_range(range.start, range.end).unwrap();
    }
}
