// A source feature: rules 22 and 23. Relies on what is noted of its qualifiers, the values and what the judge's parts share.
#![tactic(auto)]

ghost use Rattle.judge_source.specs.Sources.{TellsOnce, JudgesSource};

use judge_faults::{Fault, Known};
use judge_qualifiers::Noted;
use walk_items::FoundFeature;

fn is_once(organisms: usize, moltypes: usize) -> bool
    ensures { TellsOnce organisms moltypes result }
{
    organisms == 1 && moltypes == 1
}

// The first fault of the source. `noted` is what its qualifiers say.
pub fn judge_source(s: &[u8], feature: &FoundFeature, noted: Noted, known: Known) -> Fault
    ensures { JudgesSource s.now feature.now.key.from feature.now.location noted known result }
{
    let FoundFeature { key, location, .. } = *feature;
    let a = judge_faults::unless(is_once(noted.organisms, noted.moltypes), 22, key.from);
    let whole = value_words::is_whole(
        read_steps::bytes_of(s, location.from, location.to),
        known.top as usize,
    );
    let b = judge_faults::unless(whole, 23, location.from);
    judge_faults::earlier(a, b)
}
