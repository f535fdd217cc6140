//! The law of sessions over a simulation of a system that conforms. It has no code.
ghost use Rattle.std.specs.Prelude.{◌≡◌, ℕ};
ghost use Rattle.lts_base.specs.System.{System};
ghost use Rattle.lts_base.specs.Conformance.{IsConforming};
ghost use Rattle.session_core.specs.declared.phase.Phase.TheVariants.{Done};
ghost use Rattle.session_core.specs.declared.verdict.Verdict.TheVariants.{Fail};
ghost use Rattle.session_core.specs.Table.{Rules, Sitting};
ghost use Rattle.sim_session.specs.Rehearsed.{IsRehearsed};

/// A session over a simulation of a system that conforms to the specification doesn't fail, whatever
/// was drawn.
pub fn conforming_never_fails()
    ensures { (r : Rules) (i : System) (s : Sitting) (k : ℕ) → IsRehearsed r i s → IsConforming r.mode i r.system → ¬ (s.phase ≡ Done (Fail k)) }
{}
