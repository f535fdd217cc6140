//! Laws on what a link over a stream meets.
ghost use Rattle.std.specs.Prelude.{◌≡◌, Bool, ℕ, List, [], ◌++◌};
ghost use Rattle.edge_io.specs.declared.act.Heard.{Heard as WhatIsHeard};
ghost use Rattle.edge_io.specs.declared.content.Given.{Given};
ghost use Rattle.line_link.specs.Hearing.{Hears, IsMet, Meeting, Meets, joined};

/// What is met is told by the joined bytes alone, however they were cut into answers: a line is
/// their first one.
pub fn cuts_do_not_matter()
    ensures { (bytes text rest : List ℕ) (is_over ended : Bool) (answers : List Given) (heard : WhatIsHeard) →
        Hears bytes is_over answers heard text rest ended → IsMet heard (bytes ++ joined answers) text rest }
{}

/// A link reads as far as it has to and no further, and one thing is met: of answers with which
/// something is met, and any others after them, the others aren't read.
pub fn one_thing_is_met()
    ensures { (bytes : List ℕ) (is_over : Bool) (answers more : List Given) (first second : Meeting) →
        Meets bytes is_over answers first → Meets bytes is_over (answers ++ more) second → (more ≡ []) × (first ≡ second) }
{}
