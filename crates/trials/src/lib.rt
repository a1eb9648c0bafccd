//! Worked examples, proved over the definitions that the contracts cite.
#![tactic(auto)]

ghost use Rattle.trials.specs.Rows.{RowsAndSizes, DamagedLine};
ghost use Rattle.trials.specs.Tails.{TailsAndCalls};

/// Every example holds.
pub fn worked_examples() -> u8
    ensures rows { RowsAndSizes }
    ensures damage { DamagedLine }
    ensures tails { TailsAndCalls }
{
    0
}
