//! Classes of pairs of nets, and the tests of a bridge between them.

/// A way to test for a bridge between two nets, of which the first has the smaller number. The first four see the values of
/// nets, by what the bridge makes of the two.
#[derive(Clone, Copy, Debug, PartialEq, Eq)]
pub enum Test {
    /// Both nets are 0 where one of them is drawn to 0.
    And,
    /// Both nets are 1 where one of them is drawn to 1.
    Or,
    /// A current flows, since one net is drawn to 1 and the other to 0.
    Iddq,
    /// Both nets are what the first one is drawn to.
    ADom,
    /// Both nets are what the second one is drawn to.
    BDom,
}

/// What a pair of nets is, as far as it decides on the tests: the first of these that holds.
#[derive(Clone, Copy, Debug, PartialEq, Eq)]
pub enum Class {
    /// Both nets are inputs or supplies.
    Sources,
    /// One net is neither an input, nor a supply, nor an output.
    Internal,
    /// Both nets are in one group.
    Shared,
    /// The group of one net has two outputs or more.
    Many,
    /// One net depends on the other.
    Feedback,
    /// One net is a supply.
    Supply,
    /// One net is an input.
    Input,
    /// Both nets are outputs, and nothing of the above holds.
    Gates,
}
