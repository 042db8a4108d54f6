// The library for the box: the calls of document 01 and of request 5 of 02 as C functions. hosts/include/dreichnook.h describes each.
// Relies on the check, the index and the lookups with and without one, and on ask_answers, which hands their answers over as numbers: 0
// or the number of the refusal is returned, every number pointed to is set in every case, and a part is given as start and size within the
// lent listing. A call with an index and the one without are two functions: C has no generic one.
#![tactic(auto)]

ghost use Rattle.paper.specs.Demands.{InListing};
ghost use Rattle.paper.specs.Answers.{SequenceSays, FeatureSays, TranslationSays, TranslationsSays};
ghost use Rattle.paper.specs.Index.{IndexSays, IndexCheckSays, IndexedSequenceSays, IndexedFeatureSays, IndexedTranslationSays, IndexedTranslationsSays};
ghost use Rattle.dreichnook.specs.Numbers.{part, feature_shown, SaysCheck, SaysQualifier, SaysIndexedQualifier};

#[unsafe(no_mangle)]
pub extern "C" fn dreichnook_check(
    listing: &[u8],
    place: &mut usize,
    total: &mut usize,
    skipped: &mut usize,
    features: &mut usize,
    judged: &mut usize,
    unjudged: &mut usize,
) -> u32
    ensures { SaysCheck listing.now (record { number = result; place = place.new; total = total.new; skipped = skipped.new; features = features.new; judged = judged.new; unjudged = unjudged.new }) }
{
    ask_answers::hand_verdict(
        ask_check::check(listing),
        place,
        total,
        skipped,
        features,
        judged,
        unjudged,
    )
}

#[unsafe(no_mangle)]
pub extern "C" fn dreichnook_sequence(
    listing: &[u8],
    sequence: usize,
    place: &mut usize,
    kind: &mut u8,
    start: &mut usize,
    size: &mut usize,
) -> u32
    ensures sequence_says { SequenceSays listing.now sequence result place.new kind.new (part start.new size.new) }
    ensures in_listing { InListing listing.now (part start.new size.new) }
{
    ask_answers::hand_sequence(
        ask_lookups::locate_sequence(listing, sequence),
        place,
        kind,
        start,
        size,
    )
}

#[unsafe(no_mangle)]
pub extern "C" fn dreichnook_feature(
    listing: &[u8],
    sequence: usize,
    feature: usize,
    out: &mut [u32],
    place: &mut usize,
    keystart: &mut usize,
    keysize: &mut usize,
    locationstart: &mut usize,
    locationsize: &mut usize,
    operator: &mut u8,
    count: &mut usize,
) -> u32
    ensures feature_says { FeatureSays listing.now sequence feature out.old result place.new (feature_shown keystart.new keysize.new locationstart.new locationsize.new operator.new count.new) out.new }
    ensures in_listing { InListing listing.now (part keystart.new keysize.new) × InListing listing.now (part locationstart.new locationsize.new) }
{
    ask_answers::hand_feature(
        ask_lookups::locate_feature(listing, sequence, feature, out),
        place,
        keystart,
        keysize,
        locationstart,
        locationsize,
        operator,
        count,
    )
}

#[unsafe(no_mangle)]
pub extern "C" fn dreichnook_qualifier(
    listing: &[u8],
    sequence: usize,
    feature: usize,
    qualifier: usize,
    place: &mut usize,
    namestart: &mut usize,
    namesize: &mut usize,
    present: &mut u8,
    valuestart: &mut usize,
    valuesize: &mut usize,
) -> u32
    ensures { SaysQualifier listing.now sequence feature qualifier (record { number = result; place = place.new; name = part namestart.new namesize.new; flag = present.new; value = part valuestart.new valuesize.new }) }
{
    ask_answers::hand_qualifier(
        ask_lookups::locate_qualifier(listing, sequence, feature, qualifier),
        place,
        namestart,
        namesize,
        present,
        valuestart,
        valuesize,
    )
}

#[unsafe(no_mangle)]
pub extern "C" fn dreichnook_translation(
    listing: &[u8],
    sequence: usize,
    feature: usize,
    out: &mut [u8],
    place: &mut usize,
    size: &mut usize,
) -> u32
    ensures { TranslationSays listing.now sequence feature out.old result place.new size.new out.new }
{
    ask_answers::hand_lent(
        ask_lookups::translation(listing, sequence, feature, out),
        place,
        size,
    )
}

#[unsafe(no_mangle)]
pub extern "C" fn dreichnook_translations(
    listing: &[u8],
    sequence: usize,
    out: &mut [u8],
    place: &mut usize,
    size: &mut usize,
) -> u32
    ensures { TranslationsSays listing.now sequence out.old result place.new size.new out.new }
{
    ask_answers::hand_lent(
        ask_lookups::translations(listing, sequence, out),
        place,
        size,
    )
}

// ---- an index that travels with the listing

#[unsafe(no_mangle)]
pub extern "C" fn dreichnook_index(
    listing: &[u8],
    out: &mut [u8],
    place: &mut usize,
    size: &mut usize,
) -> u32
    ensures { IndexSays listing.now out.old result place.new size.new out.new }
{
    ask_answers::hand_lent(ask_index::index(listing, out), place, size)
}

#[unsafe(no_mangle)]
pub extern "C" fn dreichnook_index_check(listing: &[u8], index: &[u8], place: &mut usize) -> u32
    ensures { IndexCheckSays listing.now index.now result place.new }
{
    ask_answers::hand_index_verdict(ask_index::check_index(listing, index), place)
}

#[unsafe(no_mangle)]
pub extern "C" fn dreichnook_indexed_sequence(
    listing: &[u8],
    index: &[u8],
    sequence: usize,
    place: &mut usize,
    kind: &mut u8,
    start: &mut usize,
    size: &mut usize,
) -> u32
    ensures indexed_sequence_says { IndexedSequenceSays listing.now index.now sequence result place.new kind.new (part start.new size.new) }
    ensures in_listing { InListing listing.now (part start.new size.new) }
{
    ask_answers::hand_sequence(
        ask_indexed::locate_sequence(listing, index, sequence),
        place,
        kind,
        start,
        size,
    )
}

#[unsafe(no_mangle)]
pub extern "C" fn dreichnook_indexed_feature(
    listing: &[u8],
    index: &[u8],
    sequence: usize,
    feature: usize,
    out: &mut [u32],
    place: &mut usize,
    keystart: &mut usize,
    keysize: &mut usize,
    locationstart: &mut usize,
    locationsize: &mut usize,
    operator: &mut u8,
    count: &mut usize,
) -> u32
    ensures indexed_feature_says { IndexedFeatureSays listing.now index.now sequence feature out.old result place.new (feature_shown keystart.new keysize.new locationstart.new locationsize.new operator.new count.new) out.new }
    ensures in_listing { InListing listing.now (part keystart.new keysize.new) × InListing listing.now (part locationstart.new locationsize.new) }
{
    ask_answers::hand_feature(
        ask_indexed::locate_feature(listing, index, sequence, feature, out),
        place,
        keystart,
        keysize,
        locationstart,
        locationsize,
        operator,
        count,
    )
}

#[unsafe(no_mangle)]
pub extern "C" fn dreichnook_indexed_qualifier(
    listing: &[u8],
    index: &[u8],
    sequence: usize,
    feature: usize,
    qualifier: usize,
    place: &mut usize,
    namestart: &mut usize,
    namesize: &mut usize,
    present: &mut u8,
    valuestart: &mut usize,
    valuesize: &mut usize,
) -> u32
    ensures { SaysIndexedQualifier listing.now index.now sequence feature qualifier (record { number = result; place = place.new; name = part namestart.new namesize.new; flag = present.new; value = part valuestart.new valuesize.new }) }
{
    ask_answers::hand_qualifier(
        ask_indexed::locate_qualifier(listing, index, sequence, feature, qualifier),
        place,
        namestart,
        namesize,
        present,
        valuestart,
        valuesize,
    )
}

#[unsafe(no_mangle)]
pub extern "C" fn dreichnook_indexed_translation(
    listing: &[u8],
    index: &[u8],
    sequence: usize,
    feature: usize,
    out: &mut [u8],
    place: &mut usize,
    size: &mut usize,
) -> u32
    ensures { IndexedTranslationSays listing.now index.now sequence feature out.old result place.new size.new out.new }
{
    ask_answers::hand_lent(
        ask_indexed::translation(listing, index, sequence, feature, out),
        place,
        size,
    )
}

#[unsafe(no_mangle)]
pub extern "C" fn dreichnook_indexed_translations(
    listing: &[u8],
    index: &[u8],
    sequence: usize,
    out: &mut [u8],
    place: &mut usize,
    size: &mut usize,
) -> u32
    ensures { IndexedTranslationsSays listing.now index.now sequence out.old result place.new size.new out.new }
{
    ask_answers::hand_lent(
        ask_indexed::translations(listing, index, sequence, out),
        place,
        size,
    )
}
