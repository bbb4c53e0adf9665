// What the language says of each text: functions that do nothing, whose contracts are the claims.
// No code calls them; proofs above import the lemmas that answer them.
ghost use Rattle.std.specs.Prelude.{◌≡◌, ◌⊎◌, ℕ, List};
ghost use Rattle.saber_plan.specs.Trees.{Tree};
ghost use Rattle.saber_query.specs.declared.fault.Cause.{Cause};
ghost use Rattle.saber_check.specs.Texts.{HasPlan, HasFault};

/// Each text has a plan or a first fault. It has no two of these, as the laws below say.
pub fn a_text_has_a_plan_or_a_fault()
    ensures { (text : List ℕ) → ((tree : Tree) × HasPlan text tree)
        ⊎ ((byte : ℕ) × (cause : Cause) × HasFault text byte cause) }
{}

/// A text that has a fault has no plan.
pub fn a_fault_excludes_a_plan()
    ensures { (text : List ℕ) (byte : ℕ) (cause : Cause) (tree : Tree) →
        HasFault text byte cause → ¬ (HasPlan text tree) }
{}

/// A text has at most one first fault.
pub fn a_text_has_one_fault()
    ensures { (text : List ℕ) (byte other : ℕ) (cause another : Cause) →
        HasFault text byte cause → HasFault text other another → (byte ≡ other) × (cause ≡ another) }
{}

/// A text has at most one plan.
pub fn a_text_has_one_plan()
    ensures { (text : List ℕ) (tree other : Tree) →
        HasPlan text tree → HasPlan text other → tree ≡ other }
{}
