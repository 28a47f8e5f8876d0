//! What opening draws.
ghost use Rattle.std.specs.Prelude.{is_ok, ◌++◌};
ghost use Rattle.opentype.specs.Draws.{Drew};
ghost use Rattle.opentype.specs.Openings.{array_draws, opening_draws};
ghost use Rattle.context.specs.Meanings.{table_of};
ghost use Rattle.digest.specs.Allowances.{allowance_of};

use context::coverages::CoverageRule;
use context::subtable::Subtable;
use digest::budget::{Budget, Exhausted};
use readers::width::Width;
use rules::parsed::ParsedRule;

/// The longest array of coverages that is drawn for.
const LONGEST_DRAWN: u32 = 64;

/// The bytes that are drawn for a coverage.
const COVERAGE_BYTES: u64 = 24;

/// Draws for an array of coverages: its length in work, then 24 bytes for each; a longer array draws nothing.
fn draw_array(count: u32, budget: &mut Budget) -> Result<(), Exhausted>
    ensures { Drew (array_draws count) (allowance_of budget.old) (allowance_of budget.new) (is_ok result) }
{
    if count > LONGEST_DRAWN {
        return Ok(());
    }
    budget.work(u64::from(count))?;
    budget.bytes(COVERAGE_BYTES * u64::from(count))
}

/// Draws for a rule over coverages: its inputs after the first, its backtrack and its lookahead.
fn draw_rule<W: Width>(rule: &ParsedRule<W>, budget: &mut Budget) -> Result<(), Exhausted>
    ensures { let r = rule.now in Drew (array_draws r.input.count ++ (array_draws r.backtrack.count ++ array_draws r.lookahead.count)) (allowance_of budget.old) (allowance_of budget.new) (is_ok result) }
{
    draw_array(rule.input.count, budget)?;
    draw_array(rule.backtrack.count, budget)?;
    draw_array(rule.lookahead.count, budget)
}

/// Draws for a subtable: for the rule of a coverage subtable; the other kinds draw nothing.
pub(crate) fn draw_opening(subtable: &Subtable, budget: &mut Budget) -> Result<(), Exhausted>
    ensures { Drew (opening_draws (table_of subtable.now)) (allowance_of budget.old) (allowance_of budget.new) (is_ok result) }
{
    match subtable {
        Subtable::Coverages(view) => match &view.rule {
            CoverageRule::Narrow(rule) => draw_rule(rule, budget),
            CoverageRule::Wide(rule) => draw_rule(rule, budget),
        },
        Subtable::Glyphs(_) | Subtable::Classes(_) => Ok(()),
    }
}
