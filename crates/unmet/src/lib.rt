// The questions that the calls put, as the error of whatever turns something down: the first that is not met.
#![tactic(auto)]

ghost use Rattle.std.specs.Prelude.{◌≡◌};
ghost use Rattle.unmet.specs.Number.{number_of};

// A question that is not met, by what it asks for.
#[derive(Clone, Copy, Debug, PartialEq, Eq, Hash)]
pub enum Unmet {
    // 1. "Are lent buffers long enough?"
    Room,
    // 2. "Has the table at most 65,536 bytes, and is its last byte LF?"
    Ended,
    // 3. "Is each line .. formed as above?"
    Formed,
    // 4. "Is the line order kept?"
    Ordered,
    // 5. "Are the counts within the limits?"
    Limits,
    // 6. "Is every declared name new?"
    New,
    // 7. "Is every used name declared in the kind wanted there?"
    Declared,
    // 8. "Has the tree at most 1,024 nodes?"
    Nodes,
    // 9. "Are there at most 8,191 variables?"
    Variables,
    // 10. "Are the first lent tree records .. those of this table?"
    SameTree,
    // 11. "Is the line asked for at most the clause count?"
    Line,
    // 12. "Has the answer at most 65,536 bytes, formed as above?"
    AnswerFormed,
    // 13. "Does it say SATISFIABLE?"
    Satisfiable,
    // 14. "Does each variable stand once, and no other?"
    EachOnce,
    // 15. "Is every clause satisfied?"
    Satisfied,
}

impl Unmet {
    // The question's number.
    pub fn number(self) -> usize
        ensures { result ≡ number_of self }
    {
        match self {
            Unmet::Room => 1,
            Unmet::Ended => 2,
            Unmet::Formed => 3,
            Unmet::Ordered => 4,
            Unmet::Limits => 5,
            Unmet::New => 6,
            Unmet::Declared => 7,
            Unmet::Nodes => 8,
            Unmet::Variables => 9,
            Unmet::SameTree => 10,
            Unmet::Line => 11,
            Unmet::AnswerFormed => 12,
            Unmet::Satisfiable => 13,
            Unmet::EachOnce => 14,
            Unmet::Satisfied => 15,
        }
    }
}
