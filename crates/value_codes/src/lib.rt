// The values of the header's texts: dates, and the codes of offices and languages. Each test takes the raw part of the listing, as those
// of the crate value_words do, on whose laws it relies. It knows no element of the listing.
#![tactic(auto)]

ghost use Rattle.std.specs.Prelude.{◌≡◌};
ghost use Rattle.paper.specs.Values.{Date, Two, is_upper, is_lower, is_leap, days_in};
ghost use Rattle.value_words.specs.Reading.{Tells, OfRead};
ghost use Rattle.value_codes.specs.Parts.{between, two_digits, Day};

fn within(b: u8, low: u8, high: u8) -> bool
    ensures { result ≡ between low high b }
{
    low <= b && b <= high
}

// The value of two digits.
fn two_digits(a: u8, b: u8) -> Option<usize>
    ensures { result ≡ two_digits a b }
{
    if within(a, b'0', b'9') && within(b, b'0', b'9') {
        Some((a - b'0') as usize * 10 + (b - b'0') as usize)
    } else {
        None
    }
}

fn is_leap(year: usize) -> bool
    ensures { result ≡ is_leap year }
{
    year % 4 == 0 && (year % 100 != 0 || year % 400 == 0)
}

fn days_in(year: usize, month: usize) -> usize
    ensures { result ≡ days_in year month }
{
    match month {
        2 if is_leap(year) => 29,
        2 => 28,
        4 | 6 | 9 | 11 => 30,
        _ => 31,
    }
}

// Whether there is such a day.
fn is_day(year: usize, month: usize, day: usize) -> bool
    ensures { Tells result (Day year month day) }
{
    1 <= year && 1 <= month && month <= 12 && 1 <= day && day <= days_in(year, month)
}

// Whether it is "a real Gregorian CCYY-MM-DD, years 0001 to 9999".
pub fn is_date(w: &[u8]) -> bool
    ensures { OfRead w.now Date result }
{
    if w.len() != 10 || w[4] != b'-' || w[7] != b'-' {
        return false;
    }
    let Some(century) = two_digits(w[0], w[1]) else {
        return false;
    };
    let Some(rest) = two_digits(w[2], w[3]) else {
        return false;
    };
    let Some(month) = two_digits(w[5], w[6]) else {
        return false;
    };
    let Some(day) = two_digits(w[8], w[9]) else {
        return false;
    };
    is_day(century * 100 + rest, month, day)
}

// Whether it is two bytes from `low` to `high`.
fn is_two(w: &[u8], low: u8, high: u8) -> bool
    ensures { Tells result (Two (between low high) w.now) }
{
    w.len() == 2 && within(w[0], low, high) && within(w[1], low, high)
}

// "two letters A to Z"
pub fn is_office(w: &[u8]) -> bool
    ensures { OfRead w.now (Two is_upper) result }
{
    is_two(w, b'A', b'Z')
}

// "two letters a to z"
pub fn is_language(w: &[u8]) -> bool
    ensures { OfRead w.now (Two is_lower) result }
{
    is_two(w, b'a', b'z')
}
