// What unifying means: definitions and laws, and the answer that they speak of. There is no code to run.
#![tactic(auto)]

// What unifying two nodes comes to.
#[derive(Clone, Copy, Debug, PartialEq, Eq)]
pub enum Unification {
    Unified,
    Clash,
    Occurs,
}
