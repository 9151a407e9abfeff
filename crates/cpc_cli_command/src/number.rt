//! How many steps a run may take, how many cells, how many steps a section, and how many workers run sections.
ghost use Rattle.std.specs.Prelude.{◌≡◌};
ghost use Rattle.std.specs.Char.{is_ascii_digit};
ghost use Rattle.std.specs.List.{list_all};
ghost use Rattle.cpc_cli_command.specs.Number.{is_numeral as is_numeral_text, number_of, number_up_to};

/// The steps of a run where the words give no number.
pub const DEFAULT_STEPS: u64 = 100_000_000;

/// The most steps that the words may ask for.
pub const MOST_STEPS: u64 = 1_000_000_000_000;

/// The live cells of a run where the words give no number.
pub const DEFAULT_CELLS: u64 = 4_000_000;

/// The most live cells that the words may ask for.
pub const MOST_CELLS: u64 = 50_000_000;

/// The steps of a section where the words give no number.
pub const DEFAULT_SECTION_STEPS: u64 = 10_000_000;

/// The most steps of a section that the words may ask for.
pub const MOST_SECTION_STEPS: u64 = 1_000_000_000_000;

/// The workers that run sections where the words give no number.
pub const DEFAULT_WORKERS: u32 = 2;

/// The most workers that the words may ask for.
pub const MOST_WORKERS: u32 = 64;

/// The most threads of a sample.
pub const MOST_THREADS: u32 = 1_000;

/// The most digits of a number, with any zeros before it.
const MOST_DIGITS: usize = 18;

/// The number that `text` writes: 1 to 18 decimal digits and nothing else, of a value within 1 to `most`. None where
/// it is no such number.
pub(crate) fn read_number(text: &str, most: u64) -> Option<u64>
    ensures { result ≡ number_of most text.now }
{
    match read_number_up_to(text, most)? {
        0 => None,
        number => Some(number),
    }
}

/// The number that `text` writes: 1 to 18 decimal digits and nothing else, of a value within 0 to `most`. None where
/// it is no such number.
pub(crate) fn read_number_up_to(text: &str, most: u64) -> Option<u64>
    ensures { result ≡ number_up_to most text.now }
{
    if !is_numeral(text) {
        return None;
    }
    let number: u64 = text.parse().ok()?;
    if number > most {
        return None;
    }
    Some(number)
}

/// Whether `text` is 1 to 18 decimal digits.
fn is_numeral(text: &str) -> bool
    ensures { result ≡ is_numeral_text text.now }
{
    !text.is_empty() && text.len() <= MOST_DIGITS && has_only_digits(text)
}

/// Whether each byte of `text` is a decimal digit.
fn has_only_digits(text: &str) -> bool
    ensures { result ≡ list_all is_ascii_digit text.now }
{
    text.bytes().all(|byte| byte.is_ascii_digit())
}
