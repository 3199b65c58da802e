//! The values of options and places.

ghost use Rattle.std.specs.Prelude.{◌≡◌, ℕ, IfSome, Some, codes};
ghost use Rattle.pool_texts.specs.Lines.{IsNumber};
ghost use Rattle.node_words.specs.Words.{word_or, HasNumber, HasFlag};

use clap::ArgMatches;
use pool_texts::digits;

/// The first word of the option or place of this name, or else the other.
pub fn word_or<'a>(found: &ArgMatches<'a>, name: &str, other: &'static str) -> &'a str
    ensures { result.now ≡ word_or other.now found.now name.now }
{
    found.get_str(name).unwrap_or(other)
}

/// The number of an option, which is written in digits alone: the parser of numbers takes a sign.
pub fn number_32(found: &ArgMatches<'_>, name: &str) -> Option<u32>
    ensures written { IfSome result (HasNumber 32 found.now name.now) }
    ensures only { (number : ℕ) → HasNumber 32 found.now name.now number → result ≡ Some number }
{
    digits(word_or(found, name, ""))?.parse().ok()
}

/// And a larger one.
pub fn number_64(found: &ArgMatches<'_>, name: &str) -> Option<u64>
    ensures written { IfSome result (HasNumber 64 found.now name.now) }
    ensures only { (number : ℕ) → HasNumber 64 found.now name.now number → result ≡ Some number }
{
    digits(word_or(found, name, ""))?.parse().ok()
}

/// Whether a flag is set.
pub fn flag(found: &ArgMatches<'_>, name: &str) -> bool
    ensures { HasFlag found.now name.now result }
{
    found.get_flag(name)
}
