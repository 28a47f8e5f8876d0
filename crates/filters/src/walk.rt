//! The walk over the rules of a subtable that gathers the glyphs which may follow the first one in a match.
ghost use Rattle.std.specs.Prelude.{◌≡◌, ℕ, Some};
ghost use Rattle.std.specs.Option.{option_map};
ghost use Rattle.opentype.specs.Filters.{Adding, add_rule, add_set, add_sets};
ghost use Rattle.opentype.specs.Masks.{none};
ghost use Rattle.opentype.specs.Subtables.{glyph_adding};
ghost use Rattle.opentype.specs.Walks.{walk};
ghost use Rattle.digest.specs.Allowances.{allowance_of};
ghost use Rattle.adding.specs.Walked.{CarriedOut};
ghost use Rattle.rules.specs.Views.{rule_of, rule_set_of, rules_of, sets_of};
ghost use Rattle.filters.specs.Seconds.{classes_adding, offsets_adding};
ghost use Rattle.filters.specs.Digested.{Walked, gathered, masks_in};

use adding::gathering::Gathering;
use adding::stop::Stop;
use digest::budget::{Budget, Exhausted};
use digest::set_digest::SetDigest;
use readers::width::Width;
use rules::parsed::ParsedRule;
use rules::rule_sets::RuleSets;
use rules::sets::{RuleSet, Rules};
use rules::widths::RuleWidths;
use tables::class::ClassDef;
use tables::coverage::Coverage;

/// How the first value behind a rule's first glyph is added: as an input, or as a lookahead. Where any glyph may match
/// the value, the walk stops with all ones. A trait and no closures: contracts cite what a value adds as a function, and
/// of a closure they could only say which outcomes are possible.
pub trait AddSecond {
    ghost adding: { Self → Adding ℕ };

    fn add_input(&self, value: u32, gathering: &mut Gathering) -> Result<(), Stop>
        ensures { CarriedOut ((adding self.now).input value) gathering.old gathering.new result };

    fn add_lookahead(&self, value: u32, gathering: &mut Gathering) -> Result<(), Stop>
        ensures { CarriedOut ((adding self.now).lookahead value) gathering.old gathering.new result };
}

/// A value is a glyph.
#[derive(Clone, Copy)]
pub struct SecondGlyph;

impl AddSecond for SecondGlyph {
    ghost adding = { λ _. glyph_adding };

    fn add_input(&self, value: u32, gathering: &mut Gathering) -> Result<(), Stop> {
        gathering.digest.add(value);
        Ok(())
    }

    fn add_lookahead(&self, value: u32, gathering: &mut Gathering) -> Result<(), Stop> {
        self.add_input(value, gathering)
    }
}

/// A value is a class of these tables.
#[derive(Clone, Copy)]
pub struct SecondClass<'a> {
    pub input: ClassDef<'a>,
    pub lookahead: ClassDef<'a>,
}

impl AddSecond for SecondClass<'_> {
    ghost adding = { λ s. classes_adding s.input s.lookahead };

    fn add_input(&self, value: u32, gathering: &mut Gathering) -> Result<(), Stop> {
        gathering.add_class(&self.input, value)
    }

    fn add_lookahead(&self, value: u32, gathering: &mut Gathering) -> Result<(), Stop> {
        gathering.add_lookahead_class(&self.lookahead, value)
    }
}

/// A value is the offset, in these bytes, of a coverage table.
#[derive(Clone, Copy)]
pub struct SecondCoverage<'a>(pub &'a [u8]);

impl AddSecond for SecondCoverage<'_> {
    ghost adding = { λ s. offsets_adding s.0.now };

    fn add_input(&self, value: u32, gathering: &mut Gathering) -> Result<(), Stop> {
        gathering.add_coverage(&Coverage::at(self.0, value as usize))
    }

    fn add_lookahead(&self, value: u32, gathering: &mut Gathering) -> Result<(), Stop> {
        self.add_input(value, gathering)
    }
}

/// The filter of a subtable of rule sets: the glyphs that may follow the first one in a match. All ones where a set or a
/// rule is unreadable, or any glyph may follow in a rule.
pub fn add_sets<F: RuleWidths, A: AddSecond>(
    sets: &RuleSets<F>,
    adding: &A,
    budget: &mut Budget,
) -> Result<SetDigest, Exhausted>
    ensures walked { Walked (add_sets (A.AddSecond.adding adding.now) (sets_of F.Set.BYTES F.Offset.BYTES F.Value.BYTES sets.now)) (allowance_of budget.old) (allowance_of budget.new) result }
{
    budget.work(u64::from(sets.len()))?;
    let mut gathering = Gathering {
        digest: SetDigest::new(),
        budget,
    };
    let walked = add_each_set(sets, adding, &mut gathering);
    settle(walked, gathering.digest)
}

/// The filter of one rule. It gathers as `add_sets` does: they differ in the draw and in the walk, and one text over both
/// would be told the walk by a clause.
pub fn add_rule_alone<W: Width, A: AddSecond>(
    rule: &ParsedRule<W>,
    adding: &A,
    budget: &mut Budget,
) -> Result<SetDigest, Exhausted>
    ensures walked { Walked (add_rule (A.AddSecond.adding adding.now) (Some (rule_of W.Width.BYTES rule.now)) none) (allowance_of budget.old) (allowance_of budget.new) result }
{
    let mut gathering = Gathering {
        digest: SetDigest::new(),
        budget,
    };
    let walked = add_rule(rule, adding, &mut gathering);
    settle(walked, gathering.digest)
}

/// What a walk comes to: all ones where it stopped.
fn settle(walked: Result<(), Stop>, digest: SetDigest) -> Result<SetDigest, Exhausted>
    ensures masks { masks_in result ≡ gathered walked digest.masks }
{
    // Three cases, two of which are answers.
    match walked {
        Ok(()) => Ok(digest),
        Err(Stop::AnyGlyph) => Ok(SetDigest::full()),
        Err(Stop::Exhausted) => Err(Exhausted),
    }
}

/// Adds each set in turn. `adding` and `gathering` go in singly, as the trait's methods take them.
fn add_each_set<F: RuleWidths, A: AddSecond>(
    sets: &RuleSets<F>,
    adding: &A,
    gathering: &mut Gathering,
) -> Result<(), Stop>
    ensures { let all = sets_of F.Set.BYTES F.Offset.BYTES F.Value.BYTES sets.now in CarriedOut (walk (add_set (A.AddSecond.adding adding.now)) all) gathering.old gathering.new result }
{
    for set in sets.iter() {
        add_set(set, adding, gathering)?;
    }
    Ok(())
}

/// Adds a set: draws its rule count, and adds each rule in turn. A null set is passed over, an unreadable one stops the
/// walk.
fn add_set<F: RuleWidths, A: AddSecond>(
    set: RuleSet<F>,
    adding: &A,
    gathering: &mut Gathering,
) -> Result<(), Stop>
    ensures { CarriedOut (add_set (A.AddSecond.adding adding.now) (rule_set_of F.Offset.BYTES F.Value.BYTES set.entry)) gathering.old gathering.new result }
{
    match set {
        RuleSet::Null => Ok(()),
        RuleSet::Unreadable => Err(Stop::AnyGlyph),
        RuleSet::Rules(rules) => {
            gathering.budget.work(u64::from(rules.len()))?;
            add_rules(&rules, adding, gathering)
        }
    }
}

/// Adds each rule of a set in turn. An unreadable one stops the walk.
fn add_rules<F: RuleWidths, A: AddSecond>(
    rules: &Rules<F>,
    adding: &A,
    gathering: &mut Gathering,
) -> Result<(), Stop>
    ensures { CarriedOut (walk (add_rule (A.AddSecond.adding adding.now)) (rules_of F.Offset.BYTES F.Value.BYTES rules.now)) gathering.old gathering.new result }
{
    for rule in rules.iter() {
        add_rule(&rule.ok_or(Stop::AnyGlyph)?, adding, gathering)?;
    }
    Ok(())
}

/// Adds a rule by its first input value, or else by its first lookahead value: any glyph may follow where it has neither.
#[tactic(auto, using(crate::proofs::Firsts::by_neither))]
fn add_rule<W: Width, A: AddSecond>(
    rule: &ParsedRule<W>,
    adding: &A,
    gathering: &mut Gathering,
) -> Result<(), Stop>
    ensures { CarriedOut (add_rule (A.AddSecond.adding adding.now) (Some (rule_of W.Width.BYTES rule.now))) gathering.old gathering.new result }
{
    if let Some(value) = rule.input.iter::<W>().next() {
        return adding.add_input(value, gathering);
    }
    let value = rule.lookahead.iter::<W>().next().ok_or(Stop::AnyGlyph)?;
    adding.add_lookahead(value, gathering)
}
