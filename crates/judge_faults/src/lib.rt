// What the parts of the judge share: the earlier of two faults, the fault of a test, counters with a cap, and what is known of a sequence
// while its features are judged. Relies on the paper, the walk and the values.
#![tactic(auto)]

ghost use Rattle.std.specs.Prelude.{◌≡◌};
ghost use Rattle.judge_faults.specs.Sets.{Earlier, unless_of};
ghost use Rattle.judge_faults.specs.Counters.{up_to, up_to_two};

use paper::Refused;
use value_words::Molecule;
use walk_steps::Range;

// The first broken rule of some part of a listing, if one is broken.
pub type Fault = Option<Refused>;

// What is known of a sequence while its features are judged: the kind that its moltype names, L, where the first residue stands that is
// no symbol of the kind, or behind them all, and where its residues stand.
#[derive(Clone, Copy)]
pub struct Known {
    pub kind: Molecule,
    pub top: u32,
    pub foreign: usize,
    pub residues: Range,
}

// The same fault, made anew: the unused bytes of one that is handed on are copied too, and the processor waits for them.
pub fn anew(a: Fault) -> Fault
    ensures { result ≡ a }
{
    match a {
        None => None,
        Some(x) => Some(x),
    }
}

// The earlier of two faults: by place, and at one place by rule. No derived order is this one: a rule is the first field, and none is last.
pub fn earlier(a: Fault, b: Fault) -> Fault
    ensures { Earlier a b result }
{
    let Some(x) = a else {
        return anew(b);
    };
    let Some(y) = b else {
        return Some(x);
    };
    if x.place < y.place || (x.place == y.place && x.rule <= y.rule) {
        return Some(x);
    }
    Some(y)
}

// The fault of a test that fails.
pub fn unless(ok: bool, rule: usize, place: usize) -> Fault
    ensures { result ≡ unless_of ok rule place }
{
    if ok {
        return None;
    }
    Some(Refused { rule, place })
}

// ---- counters

// One more, up to a limit.
pub fn more(n: usize, limit: usize) -> usize
    ensures { result ≡ up_to limit n }
{
    if n < limit {
        return n + 1;
    }
    n
}

// One more if it is one, up to two: who asks for exactly one need not know how many more there are.
pub fn more_of_two(n: usize, one: bool) -> usize
    ensures { result ≡ up_to_two one n }
{
    if one {
        return more(n, 2);
    }
    n
}
