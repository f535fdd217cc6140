//! What a decision answers.
ghost use Rattle.std.specs.Prelude.{◌≡◌};
ghost use Rattle.conf_decide.specs.Told.{told_of};

use lts_base::{Item, Relation, Trace};

/// The answer of a decision.
#[derive(Drop, Debug)]
pub enum Answer {
    /// There is no violation. The pairs of the relation are the reached pairs of sets, each once,
    /// in the order of their least traces.
    Conforms(Relation),
    /// The first violation.
    Violates {
        /// The least violating trace.
        trace: Trace,
        /// The least item that the implementation shows after it and the specification doesn't.
        shown: Item,
    },
    /// A limit was passed before a violation was met.
    Undecided {
        /// The limit.
        what: What,
        /// How many members the sets of that side have up to the cut; for pairs, the limit.
        reached: u64,
        /// The length of the least trace of the pair at which the limit was passed.
        depth: u32,
    },
}

/// A limit of a decision.
#[derive(Clone, Copy, PartialEq, Eq, Debug)]
pub enum What {
    /// The number of pairs.
    Pairs,
    /// The members of the implementation's sets together.
    ImpMembers,
    /// The members of the specification's sets together.
    SpecMembers,
}

/// What is told of an answer where only the number of pairs is asked for.
#[derive(Drop, Debug)]
pub enum Verdict {
    /// There is no violation, and so many pairs are reached.
    Conforms {
        /// The number of pairs.
        pairs: u64,
    },
    /// The first violation.
    Violates {
        /// The least violating trace.
        trace: Trace,
        /// The least item that the implementation shows after it and the specification doesn't.
        shown: Item,
    },
    /// A limit was passed before a violation was met, as in `Answer`.
    Undecided {
        /// The limit.
        what: What,
        /// How many members the sets of that side have up to the cut; for pairs, the limit.
        reached: u64,
        /// The length of the least trace of the pair at which the limit was passed.
        depth: u32,
    },
}

/// What is told of the answer.
pub fn verdict_of(answer: Answer) -> Verdict
    ensures { result ≡ told_of answer }
{
    match answer {
        Answer::Conforms(relation) => Verdict::Conforms {
            pairs: relation.pairs.as_slice().len() as u64,
        },
        Answer::Violates { trace, shown } => Verdict::Violates { trace, shown },
        Answer::Undecided {
            what,
            reached,
            depth,
        } => Verdict::Undecided {
            what,
            reached,
            depth,
        },
    }
}
