//! The lines of a script.

ghost use Rattle.std.specs.Prelude.{◌≡◌, List, ℕ, ◌∷◌, ◌++◌, IfSome, None};
ghost use Rattle.script_lines.specs.Texts.{HasNoFeed};

/// What stands before the first line feed, and behind it, where there is one.
pub fn first_line(script: &[u8]) -> (&[u8], Option<&[u8]>)
    ensures first { HasNoFeed result.0.now }
    ensures more { IfSome result.1 (λ rest. script.now ≡ result.0.now ++ 10 ∷ rest.now) }
    ensures last { result.1 ≡ None → script.now ≡ result.0.now }
{
    match script.iter().position(|byte| *byte == b'\n') {
        Some(place) => (&script[..place], Some(&script[place + 1..])),
        None => (script, None),
    }
}
