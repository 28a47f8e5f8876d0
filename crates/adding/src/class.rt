//! Adding the glyphs of a class to a digest.
ghost use Rattle.std.specs.Prelude.{◌≡◌};
ghost use Rattle.opentype.specs.Filters.{add_ahead, add_class, add_entries, add_from, add_listed, add_range};
ghost use Rattle.opentype.specs.Walks.{walk_below};
ghost use Rattle.readers.specs.Views.{uints_of};
ghost use Rattle.tables.specs.Tables.{classes_of};
ghost use Rattle.tables.specs.Views.{ranges_of};
ghost use Rattle.adding.specs.Walked.{CarriedOut};

use crate::gathering::Gathering;
use crate::stop::Stop;
use digest::set_digest::SetDigest;
use readers::uints::Uints;
use readers::width::Two;
use tables::class::ClassDef;
use tables::ranges::RangeRecords;
use tables::search::Ranges;

/// The largest glyph that an array adds.
const LAST_GLYPH: u32 = 65_535;

impl Gathering<'_> {
    /// Adds the glyphs of a class. Class 0 has every glyph that the table does not list: all ones, without a draw.
    pub fn add_class(&mut self, table: &ClassDef, class: u32) -> Result<(), Stop>
        ensures { CarriedOut (add_class (classes_of table.now) class) self.old self.new result }
    {
        if class == 0 {
            self.digest = SetDigest::full();
            return Ok(());
        }
        self.add_listed(table, class)
    }

    /// Adds the glyphs of a class of the lookahead. Where the table is missing any glyph may follow.
    pub fn add_lookahead_class(&mut self, table: &ClassDef, class: u32) -> Result<(), Stop>
        ensures { CarriedOut (add_ahead (classes_of table.now) class) self.old self.new result }
    {
        if table.is_missing() {
            return Err(Stop::AnyGlyph);
        }
        self.add_class(table, class)
    }

    /// Adds the glyphs that a table lists in a class other than 0: an array draws its length, ranges draw their count,
    /// and then each range of the class its length.
    fn add_listed(&mut self, table: &ClassDef, class: u32) -> Result<(), Stop>
        ensures { CarriedOut (add_listed (classes_of table.now) class) self.old self.new result }
    {
        match table {
            ClassDef::Missing => Ok(()),
            ClassDef::Array { start, classes } => {
                self.budget.work(u64::from(classes.len()))?;
                add_entries(*start, classes, class, &mut self.digest);
                Ok(())
            }
            ClassDef::Ranges(ranges) => {
                self.budget.work(u64::from(ranges.len()))?;
                self.add_ranges(ranges, class)
            }
        }
    }

    /// Adds each range of a class.
    fn add_ranges(&mut self, ranges: &RangeRecords, class: u32) -> Result<(), Stop>
        ensures { let all = ranges_of ranges.now in CarriedOut (walk_below (add_range all class) all.count) self.old self.new result }
    {
        // By index: most ranges are of another class, so that a range's value alone is read, and seldom its whole record.
        // Over a copy, of which it is known that no draw changes it: lent, it was read anew for each range.
        let ranges = *ranges;
        for i in 0..ranges.len() {
            self.add_range(&ranges, i, class)?;
        }
        Ok(())
    }

    /// Adds range `index` where it has the class: as a span, in place of one glyph after the other. A reversed range has no
    /// glyph.
    fn add_range(&mut self, ranges: &RangeRecords, index: u32, class: u32) -> Result<(), Stop>
        ensures { CarriedOut (add_range (ranges_of ranges.now) class index) self.old self.new result }
    {
        if ranges.value(index) == class {
            let range = ranges.get(index);
            self.budget
                .work(u64::from(range.end.saturating_sub(range.start)) + 1)?;
            add_glyphs_from(range.start, range.end, &mut self.digest);
        }
        Ok(())
    }
}

/// Adds the glyphs of a class in an array. Glyphs behind the last one are taken for it.
fn add_entries(start: u16, classes: &Uints, class: u32, digest: &mut SetDigest)
    ensures masks { digest.new.masks ≡ add_entries start class (uints_of 2 classes.now) digest.old.masks }
{
    // With its number, which is part of the glyph; `enumerate` would count in another type.
    for (k, entry) in (0..classes.len()).zip(classes.iter::<Two>()) {
        if entry == class {
            digest.add(u32::from(start).saturating_add(k).min(LAST_GLYPH));
        }
    }
}

/// Adds the glyphs from `start` to `end`: none where they are reversed.
#[tactic(auto, using(opentype::proofs::Sums::sums_fit))]
fn add_glyphs_from(start: u32, end: u32, digest: &mut SetDigest)
    ensures masks { digest.new.masks ≡ add_from start end digest.old.masks }
{
    if start <= end {
        // The sums by which a span is added always fit.
        digest.add_range(start, end).unwrap();
    }
}
