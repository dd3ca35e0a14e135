//! Laws of the rules. Each function does nothing: its contract is the law.
ghost use Rattle.std.specs.Prelude.{◌≡◌, ℕ, ◌<◌, Bool, List, Result, Ok, Err};
ghost use Rattle.refusal_rules.specs.Rules.{Answers};
ghost use Rattle.refusal_rules.specs.Deciding.{tested, first_true};

/// Where each rule is a test, the answer by the rules is the refusal of the first test that is
/// true.
pub fn first_true<R>()
    ensures { (tests : List (R × Bool)) (answer : Result (Unit {0}) R)
        → Answers (tested tests) (λ refusal. answer ≡ Err refusal) (answer ≡ Ok (record {}))
        → answer ≡ first_true tests }
{}
