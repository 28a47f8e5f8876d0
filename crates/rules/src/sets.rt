//! Rule sets, read in place.
ghost use Rattle.std.specs.Prelude.{◌≡◌, Some};
ghost use Rattle.std.specs.Option.{option_map};
ghost use Rattle.opentype.specs.Rules.{read_set, rule_in, rule_set_at, rule_set_in};
ghost use Rattle.readers.specs.Views.{entries};
ghost use Rattle.rules.specs.Left.{parts_left, rules_left};
ghost use Rattle.rules.specs.Views.{parts_of, rule_of, rule_set_of, rules_of, set_of};

use crate::iter::Parts;
use crate::parsed::{ParsedRule, RuleLayout};
use crate::widths::RuleWidths;
use readers::bytes::tail;
use readers::each::Each;
use readers::uints::Uints;
use std::marker::PhantomData;

/// The rules of a set, read on demand: the set's bytes, the offsets from its first byte to its rules, and how these are
/// laid out.
#[derive_where(Clone, Copy)]
pub struct Rules<'a, F> {
    pub bytes: &'a [u8],
    pub offsets: Uints<'a>,
    pub layout: RuleLayout,
    pub widths: PhantomData<F>,
}

impl<'a, F: RuleWidths> Rules<'a, F> {
    /// How many rules there are.
    pub fn len(&self) -> u32
        ensures { result ≡ self.now.offsets.count }
    {
        self.offsets.len()
    }

    /// The bytes of rule `index`, from its offset to the set's end: none where the offset passes it.
    pub fn rule(&self, index: u32) -> Option<&'a [u8]>
        ensures { option_map (λ x. x.now) result ≡ (parts_of F.Offset.BYTES self.now).entry index }
    {
        tail(self.bytes, self.offsets.get::<F::Offset>(index) as usize)
    }

    /// The bytes of the rules in order.
    pub fn parts(&self) -> Each<Parts<'a, F>>
        ensures { parts_left F.Offset.BYTES result ≡ entries (parts_of F.Offset.BYTES self.now) }
    {
        Each::of(Parts(*self))
    }

    /// The rules in order, each readable or not.
    pub fn iter(&self) -> Each<Rules<'a, F>>
        ensures { rules_left F.Offset.BYTES F.Value.BYTES result ≡ entries (rules_of F.Offset.BYTES F.Value.BYTES self.now) }
    {
        Each::of(*self)
    }

    /// Rule `index`; none where it is unreadable.
    pub fn parsed(&self, index: u32) -> Option<ParsedRule<'a, F::Value>>
        ensures { option_map (rule_of F.Value.BYTES) result ≡ (rules_of F.Offset.BYTES F.Value.BYTES self.now).entry index }
    {
        ParsedRule::parse(self.rule(index)?, self.layout)
    }
}

/// A rule set of a subtable. Not an `Option`: a filter passes a null set over and stops at an unreadable one, and their
/// words differ.
#[derive_where(Clone, Copy)]
pub enum RuleSet<'a, F> {
    Null,
    Unreadable,
    Rules(Rules<'a, F>),
}

impl<'a, F: RuleWidths> RuleSet<'a, F> {
    /// The set at `offset` of the subtable's bytes, its rules laid out so.
    pub fn at(bytes: &'a [u8], layout: RuleLayout, offset: u32) -> RuleSet<'a, F>
        ensures parts { set_of F.Offset.BYTES result ≡ rule_set_at F.Offset.BYTES bytes.now offset }
        ensures rules { rule_set_of F.Offset.BYTES F.Value.BYTES result ≡ read_set (rule_in layout.chained F.Value.BYTES layout.whole) (rule_set_at F.Offset.BYTES bytes.now offset) }
    {
        if offset == 0 {
            return RuleSet::Null;
        }
        tail(bytes, offset as usize).map_or(RuleSet::Unreadable, |set| RuleSet::read(set, layout))
    }

    /// The set that `bytes` begin with: a count, and an offset for each rule.
    fn read(bytes: &'a [u8], layout: RuleLayout) -> RuleSet<'a, F>
        ensures parts { set_of F.Offset.BYTES result ≡ rule_set_in F.Offset.BYTES (Some bytes.now) }
        ensures rules { rule_set_of F.Offset.BYTES F.Value.BYTES result ≡ read_set (rule_in layout.chained F.Value.BYTES layout.whole) (rule_set_in F.Offset.BYTES (Some bytes.now)) }
    {
        // By `map_or` the check did not go through: it does not cover that closure's borrow.
        let Some(offsets) = Uints::counted::<F::Offset>(bytes, 0, 0) else {
            return RuleSet::Unreadable;
        };
        RuleSet::Rules(Rules {
            bytes,
            offsets,
            layout,
            widths: PhantomData,
        })
    }
}
