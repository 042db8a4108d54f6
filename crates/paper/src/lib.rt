// The paper: document 01 as definitions (specs/), and laws about them (proofs/). It relies on nothing but the kit's libraries.
// No function stands here. What a check answers is declared here, so that a definition gives its numbers.
#![tactic(auto)]

// The counts of a listing that is accepted.
#[derive(Clone, Copy)]
pub struct Figures {
    pub total: usize,
    pub skipped: usize,
    pub features: usize,
    pub judged: usize,
    pub unjudged: usize,
}

// The number of a broken rule, or of what else is refused, and its place.
#[derive(Clone, Copy)]
pub struct Refused {
    pub rule: usize,
    pub place: usize,
}

// What a check answers.
pub type Verdict = Result<Figures, Refused>;
