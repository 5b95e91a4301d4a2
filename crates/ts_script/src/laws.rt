//! Laws of scripts, for the proofs of the crates above. Each is a function that does nothing.
ghost use Rattle.std.specs.Prelude.{◌≡◌};
ghost use Rattle.ts_base.specs.Bytes.{Bytes};
ghost use Rattle.ts_script.specs.declared.fault.SFault.{SFault as AnyFault};
ghost use Rattle.ts_script.specs.declared.plan.Plan.{Plan as AnyPlan};
ghost use Rattle.ts_script.specs.Script.{IsScript, IsFault};

/// Bytes ask for one thing at most.
pub fn one_plan()
    ensures { (bytes : Bytes) (p q : AnyPlan) → IsScript bytes p → IsScript bytes q → p ≡ q }
{}

/// Bytes have one first fault at most.
pub fn one_fault()
    ensures { (bytes : Bytes) (f g : AnyFault) → IsFault bytes f → IsFault bytes g → f ≡ g }
{}

/// Bytes with a fault are no script.
pub fn refused_is_no_script()
    ensures { (bytes : Bytes) (f : AnyFault) (plan : AnyPlan) → IsFault bytes f
        → IsScript bytes plan → ⊥ }
{}
