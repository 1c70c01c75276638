//! The rules of a legal history, and the verdict on one.

use sci_words::LineNo;

/// What the receipts of a line keep that are one history of it. The rules are looked at in this order.
#[derive(Clone, Copy, Debug, PartialEq, Eq)]
pub enum Rule {
    /// H1: no stamp is below the opening one or above the closing one, and no write's is the opening one.
    Within,
    /// H2: in each node's list stamps never fall, and a write's is above all earlier ones.
    Ordered,
    /// H3: each stamp above the opening one, up to the closing one, is that of a write.
    Written,
    /// H4: no two writes have one stamp.
    Once,
    /// H5: whatever shows the words of one stamp shows the same words.
    Agreed,
}

impl Rule {
    ghost use Rattle.std.specs.Prelude.{◌≡◌};
    ghost use Rattle.sci_histories.specs.Rules.{rule_number};

    /// The rule's number, 1 to 5.
    pub fn number(self) -> u8
        ensures { result ≡ rule_number self }
    {
        match self {
            Rule::Within => 1,
            Rule::Ordered => 2,
            Rule::Written => 3,
            Rule::Once => 4,
            Rule::Agreed => 5,
        }
    }
}

/// What the check of a history says.
#[derive(Clone, Copy, Debug, PartialEq, Eq)]
pub enum Verdict {
    /// The receipts of each line are one history of it.
    Legal,
    /// This line is the first whose receipts aren't, and this is the first rule that they break.
    Illegal { line: LineNo, rule: Rule },
}
