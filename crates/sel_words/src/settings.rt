// The options' values.
ghost use Rattle.std.specs.Prelude.{◌≡◌};
ghost use Rattle.std.specs.List.{list_all};
ghost use Rattle.std.specs.Char.{is_ascii_digit};
ghost use Rattle.sel_words.specs.Settings.{is_number, number_within, chosen_value, chosen_settings};
ghost use Rattle.sel_words.specs.Found.{values_in};

use clap::ArgMatches;

/// The least and the greatest value of an option, and its value where it isn't given.
#[derive(Clone, Copy)]
pub struct Bounds {
    pub least: u64,
    pub greatest: u64,
    pub default: u64,
}

/// How many workers label trees.
const WORKERS: Bounds = Bounds {
    least: 1,
    greatest: 64,
    default: 4,
};

/// How many states the automaton may have.
const STATES: Bounds = Bounds {
    least: 0,
    greatest: 32_768,
    default: 4_096,
};

/// How many transitions the automaton may have.
const ROWS: Bounds = Bounds {
    least: 0,
    greatest: 1_048_576,
    default: 65_536,
};

/// The number from which a forest is made.
const SEED: Bounds = Bounds {
    least: 0,
    greatest: 18_446_744_073_709_551_615,
    default: 1,
};

/// How many trees a made forest has at most.
const TREES: Bounds = Bounds {
    least: 0,
    greatest: 1_000_000,
    default: 1_000,
};

/// The size of a made tree.
const SIZE: Bounds = Bounds {
    least: 1,
    greatest: 1_000,
    default: 64,
};

/// The most digits of a value.
const MOST_DIGITS: usize = 20;

/// What the options say.
#[derive(Clone, Copy)]
pub struct Settings {
    pub workers: u64,
    pub states: u64,
    pub rows: u64,
    pub seed: u64,
    pub trees: u64,
    pub size: u64,
}

fn has_digits_alone(text: &str) -> bool
    ensures { result ≡ list_all is_ascii_digit text.now }
{
    text.as_bytes().iter().all(|byte| byte.is_ascii_digit())
}

fn is_number(text: &str) -> bool
    ensures { result ≡ is_number text.now }
{
    1 <= text.len() && text.len() <= MOST_DIGITS && has_digits_alone(text)
}

fn number_within(bounds: Bounds, text: &str) -> Option<u64>
    ensures { result ≡ number_within bounds text.now }
{
    let Bounds {
        least,
        greatest,
        ..
    } = bounds;
    if !is_number(text) {
        return None;
    }
    match text.parse::<u64>() {
        Ok(number) => {
            if least <= number && number <= greatest {
                Some(number)
            } else {
                None
            }
        }
        Err(_) => None,
    }
}

fn chosen_value(found: &ArgMatches<'_>, name: &str, bounds: Bounds) -> Option<u64>
    ensures { result ≡ chosen_value bounds (values_in found.now name.now) }
{
    match found.get_raw(name) {
        None | Some([]) => Some(bounds.default),
        Some([value]) => number_within(bounds, value),
        Some(_) => None,
    }
}

/// What the options say, or None where one stands twice or has no lawful value.
pub fn chosen_settings(found: &ArgMatches<'_>) -> Option<Settings>
    ensures { result ≡ chosen_settings (values_in found.now) }
{
    Some(Settings {
        workers: chosen_value(found, "workers", WORKERS)?,
        states: chosen_value(found, "states", STATES)?,
        rows: chosen_value(found, "rows", ROWS)?,
        seed: chosen_value(found, "seed", SEED)?,
        trees: chosen_value(found, "trees", TREES)?,
        size: chosen_value(found, "size", SIZE)?,
    })
}
