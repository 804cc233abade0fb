//! The words of a command line.

ghost use Rattle.std.specs.Prelude.{◌≡◌, map, option_map, string_bytes};
ghost use Rattle.std.specs.List.{list_all};
ghost use Rattle.std.specs.Char.{is_ascii_digit};
ghost use Rattle.dy_build.specs.Parts.{seen_command};
ghost use Rattle.dy_build.specs.Words.{begins_with_hyphen, is_file_word, is_fuel_word, fuel_of};
ghost use Rattle.dy_build.specs.Words.{given, behind, fuel_given, is_main_given, are_lids};
ghost use Rattle.dy_build.specs.Words.{build_of, check_of, command_of, usage_text};

/// The fuel where the words name none.
const DEFAULT_FUEL: u64 = 10_000_000;

/// The most fuel that words name.
const FUEL_LIMIT: u64 = 1_000_000_000_000;

fn begins_with_hyphen(word: &[u8]) -> bool
    ensures { result ≡ begins_with_hyphen word.now }
{
    match word.split_first() {
        Some((byte, _)) => *byte == b'-',
        None => false,
    }
}

/// Whether the word names a file: `-` does, and other words that begin with a hyphen do not.
fn is_file_word(word: &str) -> bool
    ensures { result ≡ is_file_word word.now }
{
    !begins_with_hyphen(word.as_bytes()) || word == "-"
}

fn has_digits(word: &[u8]) -> bool
    ensures { result ≡ list_all is_ascii_digit word.now }
{
    word.iter().all(|byte| byte.is_ascii_digit())
}

/// One to thirteen decimal digits.
fn is_fuel_word(word: &[u8]) -> bool
    ensures { result ≡ is_fuel_word word.now }
{
    1 <= word.len() && word.len() <= 13 && has_digits(word)
}

/// The fuel that a word names.
fn fuel_of(word: &str) -> Option<u64>
    ensures { result ≡ fuel_of word.now }
{
    if !is_fuel_word(word.as_bytes()) {
        return None;
    }
    let Ok(fuel) = word.parse::<u64>() else {
        return None;
    };
    if fuel <= FUEL_LIMIT { Some(fuel) } else { None }
}

/// The fuel that the word of the option names, or the default.
fn fuel_given(number: Option<&str>) -> Option<u64>
    ensures { result ≡ fuel_given (option_map (λ word. word.now) number.entry) }
{
    match number {
        Some(number) => fuel_of(number),
        None => Some(DEFAULT_FUEL),
    }
}

/// Whether the word of the option, if there is one, names a library.
fn is_main_given(main: Option<&str>) -> bool
    ensures { result ≡ is_main_given (option_map (λ word. word.now) main.entry) }
{
    match main {
        Some(name) => !begins_with_hyphen(name.as_bytes()),
        None => true,
    }
}

/// Whether all words name files.
fn are_file_words(words: &[String]) -> bool
    ensures { result ≡ list_all (λ word. is_file_word (string_bytes word)) words.now }
{
    words.iter().all(|word| is_file_word(word.as_str()))
}

/// Whether there are words, and all name files.
fn are_lids(words: &[String]) -> bool
    ensures { result ≡ are_lids (map string_bytes words.now) }
{
    !words.is_empty() && are_file_words(words)
}

/// The word of an option, where words begin with that, and the words behind.
fn option_of<'w>(option: &str, words: &'w [String]) -> (Option<&'w str>, &'w [String])
    ensures given { option_map (λ word. word.now) result.0
        ≡ given option.now (map string_bytes words.now) }
    ensures behind { map string_bytes result.1.now
        ≡ behind option.now (map string_bytes words.now) }
{
    match words {
        [first, word, others @ ..] if first.as_str() == option => (Some(word.as_str()), others),
        _ => (None, words),
    }
}

/// What is to be done.
#[derive(Clone, Copy, Debug)]
pub(crate) enum Command<'w> {
    /// One of the libraries of LID files is run, with so many units of fuel: that of a name, or the
    /// last.
    Build {
        fuel: u64,
        main: Option<&'w str>,
        lids: &'w [String],
    },
    /// The libraries of LID files are checked.
    Check {
        lids: &'w [String],
    },
}

/// The words behind `build`.
fn build_words(words: &[String]) -> Option<Command<'_>>
    ensures { option_map seen_command result ≡ build_of (map string_bytes words.now) }
{
    let (number, words) = option_of("--fuel", words);
    let (main, lids) = option_of("--main", words);
    let fuel = fuel_given(number)?;
    if is_main_given(main) && are_lids(lids) {
        Some(Command::Build { fuel, main, lids })
    } else {
        None
    }
}

/// The words behind `check`.
fn check_words(lids: &[String]) -> Option<Command<'_>>
    ensures { option_map seen_command result ≡ check_of (map string_bytes lids.now) }
{
    if are_lids(lids) {
        Some(Command::Check { lids })
    } else {
        None
    }
}

/// The command `build [--fuel N] [--main L] LID..` or `check LID..`.
pub(crate) fn command_words(words: &Vec<String>) -> Option<Command<'_>>
    ensures { option_map seen_command result ≡ command_of (map string_bytes words.now.items) }
{
    let (command, words) = words.as_slice().split_first()?;
    if command.as_str() == "build" {
        build_words(words)
    } else if command.as_str() == "check" {
        check_words(words)
    } else {
        None
    }
}

/// What is printed where the words are of no command.
pub(crate) fn usage() -> &'static [u8]
    ensures { result.now ≡ usage_text }
{
    b"usage: banthruy build [--fuel N] [--main L] LID..\n       banthruy check LID..\n"
}
