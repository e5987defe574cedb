//! What can be told of the arguments without a parse.

ghost use Rattle.std.specs.Prelude.{◌≡◌, ◌↔◌, map, IsTrue, IfSome};
ghost use Rattle.chanhub.specs.Words.{AsksFor, AsksForReplay, HasUnknownOption, any_unknown_option, is_unknown_option};

use std::convert::AsStr;

/// Whether the one argument behind the program's name is `replay`.
pub(crate) fn asks_for_replay<S: AsStr>(words: &[S]) -> bool
    ensures { IsTrue result ↔ AsksForReplay (map S.text words.now) }
{
    match words {
        [_, word] => word.as_str() == "replay",
        _ => false,
    }
}

/// The argument behind the program's name.
pub(crate) fn command<'a, S: AsStr>(words: &'a [S]) -> Option<&'a str>
    ensures { IfSome result (λ word. AsksFor word.now (map S.text words.entry.now)) }
{
    match words {
        [_, word, ..] => Some(word.as_str()),
        _ => None,
    }
}

fn is_unknown_option(word: &str) -> bool
    ensures { result ≡ is_unknown_option word.now }
{
    word.starts_with('-') && word != "--journal"
}

fn any_unknown_option<S: AsStr>(words: &[S]) -> bool
    ensures { result ≡ any_unknown_option (map S.text words.now) }
{
    for word in words {
        if is_unknown_option(word.as_str()) {
            return true;
        }
    }
    false
}

/// Whether an argument behind the program's name begins with a `-` and is not `--journal`.
pub(crate) fn has_unknown_option<S: AsStr>(words: &[S]) -> bool
    ensures { IsTrue result ↔ HasUnknownOption (map S.text words.now) }
{
    match words {
        [_, rest @ ..] => any_unknown_option(rest),
        [] => false,
    }
}
