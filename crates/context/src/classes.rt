//! Context subtables over classes.
ghost use Rattle.std.specs.Prelude.{◌≡◌, ℕ, length, slice_index};
ghost use Rattle.std.specs.Option.{option_map};
ghost use Rattle.opentype.specs.Classes.{classes_end};
ghost use Rattle.opentype.specs.Matching.{rules_in, set_applies, set_finds};
ghost use Rattle.opentype.specs.Subtables.{by_class, class_step, in_class, meaning};
ghost use Rattle.opentype.proofs.Sounding.{filters_sound};
ghost use Rattle.digest.specs.Allowances.{allowance_of};
ghost use Rattle.filters.specs.Digested.{Walked};
ghost use Rattle.rules.specs.Views.{found_of};
ghost use Rattle.rule_words.specs.Fills.{entry_of, fill_answer, fill_leaves, fill_stores};
ghost use Rattle.tables.specs.Tables.{classes_of};
ghost use Rattle.context.specs.Classes.{class_table_of, in_classes};

use answers::Refusal;
use bank::subtable::ContextSubtable;
use digest::budget::{Budget, Exhausted};
use digest::set_digest::SetDigest;
use filters::walk::{SecondClass, add_sets};
use rule_words::fill_words;
use rules::matching::InClass;
use rules::rule_sets::RuleSets;
use rules::walk::{ChainMatchers, Found};
use rules::widths::{Narrow, WideClasses};
use tables::class::ClassDef;
use tables::coverage::Coverage;

/// The glyphs of the 16-bit formats.
const GLYPHS: u32 = 65_536;

/// The rule sets of a subtable over classes, by their widths. In the wide kind set and rule offsets have three bytes;
/// values always have two.
///
/// Each call is one arm for each width: a trait with a generic method, or a macro, would be longer than the arms.
#[derive(Clone, Copy)]
pub enum ClassSets<'a> {
    Narrow(RuleSets<'a, Narrow>),
    Wide(RuleSets<'a, WideClasses>),
}

/// Rules over classes: the first glyph must be covered, and its input class selects the set. Each sequence has a class
/// table of its own.
#[derive(Drop)]
pub struct ChainContext2<'a> {
    pub coverage: Coverage<'a>,
    pub backtrack: ClassDef<'a>,
    pub input: ClassDef<'a>,
    pub lookahead: ClassDef<'a>,
    pub sets: ClassSets<'a>,
}

impl<'a> ContextSubtable for ChainContext2<'a> {
    ghost table = { λ view. meaning (by_class (class_table_of view)) };

    ghost sound = { λ view. filters_sound (by_class (class_table_of view)) };

    fn applies(&self, glyphs: &[u32], zero_context: bool) -> bool {
        // By `is_some_and` the proof did not close: what the closure answers was not known behind it.
        let Some(first) = glyphs.first() else {
            return false;
        };
        self.coverage.covers(*first)
            && self.set_applies(self.input.get(*first), glyphs, zero_context)
    }

    fn find(&self, run: &[u32], place: usize) -> Option<Found> {
        let first = *run.get(place)?;
        if !self.coverage.covers(first) {
            return None;
        }
        self.set_finds(self.input.get(first), run, place)
    }

    fn can_filter(&self) -> bool {
        ends_in_time(&self.input) && ends_in_time(&self.lookahead)
    }

    fn digest(&self, budget: &mut Budget) -> Result<SetDigest, Refusal> {
        if !self.can_filter() {
            return Err(Refusal::NotFilterable);
        }
        Ok(self.seconds(budget)?)
    }
}

/// Whether no class array runs past the last glyph of 16 bits.
fn ends_in_time(table: &ClassDef) -> bool
    ensures { result ≡ classes_end (classes_of table.now) }
{
    match table {
        ClassDef::Array { start, classes } => {
            classes.count <= GLYPHS && u32::from(*start) + classes.count <= GLYPHS
        }
        ClassDef::Missing | ClassDef::Ranges(_) => true,
    }
}

impl<'a> ChainContext2<'a> {
    fn set_applies(&self, index: u32, glyphs: &[u32], zero_context: bool) -> bool
        ensures { result ≡ set_applies (in_class (classes_of self.now.input)) zero_context glyphs.now (rules_in (class_table_of self.now).sets index) }
    {
        let input = InClass(self.input);
        match &self.sets {
            ClassSets::Narrow(sets) => sets.apply(index, &input, glyphs, zero_context),
            ClassSets::Wide(sets) => sets.apply(index, &input, glyphs, zero_context),
        }
    }

    fn set_finds(&self, index: u32, run: &[u32], place: usize) -> Option<Found>
        ensures { option_map found_of result ≡ set_finds (in_classes self.now) run.now place (rules_in (class_table_of self.now).sets index) }
    {
        let matchers = ChainMatchers {
            backtrack: InClass(self.backtrack),
            input: InClass(self.input),
            lookahead: InClass(self.lookahead),
        };
        match &self.sets {
            ClassSets::Narrow(sets) => sets.find(index, &matchers, run, place),
            ClassSets::Wide(sets) => sets.find(index, &matchers, run, place),
        }
    }

    /// How many rule sets there are.
    pub fn set_count(&self) -> u32
        ensures { result ≡ (class_table_of self.now).sets.count }
    {
        match &self.sets {
            ClassSets::Narrow(sets) => sets.len(),
            ClassSets::Wide(sets) => sets.len(),
        }
    }

    /// Fills `words` with the words of the rule sets: the first input classes of each set's rules, modulo 64. Refused: a
    /// buffer shorter than the sets, with nothing drawn or stored; a draw above what is left, with the words of the sets
    /// before it stored. The rest of the buffer stays.
    pub fn fill_words(&self, words: &mut [u64], budget: &mut Budget) -> Result<(), Refusal>
        ensures answer { result ≡ fill_answer (class_table_of self.now).firsts (length words.old) (allowance_of budget.old) }
        ensures left { allowance_of budget.new ≡ fill_leaves (class_table_of self.now).firsts (length words.old) (allowance_of budget.old) }
        ensures buffer { let all = (class_table_of self.now).firsts in ((k : ℕ) → slice_index words.new k ≡ entry_of all (fill_stores all (length words.old) (allowance_of budget.old)) words.old k) }
    {
        match &self.sets {
            ClassSets::Narrow(sets) => fill_words(sets, words, budget),
            ClassSets::Wide(sets) => fill_words(sets, words, budget),
        }
    }

    /// The glyphs that may follow the first one in a match: any, where the input class table is missing.
    fn seconds(&self, budget: &mut Budget) -> Result<SetDigest, Exhausted>
        ensures { Walked (class_step (class_table_of self.now)) (allowance_of budget.old) (allowance_of budget.new) result }
    {
        if self.input.is_missing() {
            return Ok(SetDigest::full());
        }
        let adding = SecondClass {
            input: self.input,
            lookahead: self.lookahead,
        };
        match &self.sets {
            ClassSets::Narrow(sets) => add_sets(sets, &adding, budget),
            ClassSets::Wide(sets) => add_sets(sets, &adding, budget),
        }
    }
}
