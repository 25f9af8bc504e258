//! Times of day as the rules want them written.
ghost use Rattle.std.specs.Prelude.{◌≡◌, is_some};
ghost use Rattle.rt_day.specs.Time.{sixtieth_of};
ghost use Rattle.rule_table.specs.Passed.{is_clock};

use rt_day::parse_digits;

fn is_sixtieth(text: &str) -> bool
    ensures { result ≡ is_some (sixtieth_of text.now) }
{
    match parse_digits(text, 2, 2) {
        Some(number) => number <= 59,
        None => false,
    }
}

/// Whether a text is two or three digits, a colon, two digits up to 59, a colon and two digits up to 59.
pub fn is_clock(text: &str) -> bool
    ensures { result ≡ is_clock text.now }
{
    match text.split_once(':') {
        None => false,
        Some((hours, rest)) => match rest.split_once(':') {
            None => false,
            Some((minutes, seconds)) => {
                parse_digits(hours, 2, 3).is_some() && is_sixtieth(minutes) && is_sixtieth(seconds)
            }
        },
    }
}
