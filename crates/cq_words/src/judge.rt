//! The grammar of the words.
ghost use Rattle.std.specs.Prelude.{◌≡◌, ◌∷◌, [], codes, is_some, map, string_bytes};
ghost use Rattle.cq_words.specs.Words.{command_for, is_value as value_test};

use crate::command::{slots_of, soak};

/// Whether the words are a command.
#[tactic(auto, using(crate::proofs::Streaming::too_many))]
pub fn is_command(words: &[String]) -> bool
    ensures { result ≡ is_some (command_for (map string_bytes words.now)) }
{
    match words {
        [word, config] => is_config_form(word.as_str(), config.as_str()),
        [word, first, second] => is_pair_form(word.as_str(), first.as_str(), second.as_str()),
        [word, first, second, third] => {
            is_triple_form(
                word.as_str(),
                first.as_str(),
                second.as_str(),
                third.as_str(),
            )
        }
        _ => false,
    }
}

fn is_config_form(word: &str, config: &str) -> bool
    ensures { result ≡ is_some (command_for (word.now ∷ config.now ∷ [])) }
{
    is_value(config) && matches!(word, "check" | "ideal" | "run" | "audit")
}

fn is_pair_form(word: &str, first: &str, second: &str) -> bool
    ensures { result ≡ is_some (command_for (word.now ∷ first.now ∷ second.now ∷ [])) }
{
    is_value(first) && is_value(second) && matches!(word, "pass" | "resume")
}

fn is_triple_form(word: &str, first: &str, second: &str, third: &str) -> bool
    ensures { result ≡ is_some (command_for (word.now ∷ first.now ∷ second.now ∷ third.now ∷ [])) }
{
    match word {
        "soak" => is_soak_form(first, second, third),
        "part" => is_part_form(first, second, third),
        _ => false,
    }
}

fn is_soak_form(seed: &str, ports: &str, slots: &str) -> bool
    ensures { result ≡ is_some (command_for (codes "soak" ∷ seed.now ∷ ports.now ∷ slots.now ∷ [])) }
{
    is_value(seed) && is_value(ports) && is_value(slots) && soak(seed, ports, slots).is_some()
}

fn is_part_form(config: &str, slots: &str, state: &str) -> bool
    ensures { result ≡ is_some (command_for (codes "part" ∷ config.now ∷ slots.now ∷ state.now ∷ [])) }
{
    is_value(config) && is_value(slots) && is_value(state) && slots_of(slots).is_some()
}

/// Whether the word may stand for a value.
pub fn is_value(word: &str) -> bool
    ensures { result ≡ value_test word.now }
{
    match word.as_bytes() {
        [] => false,
        [first, ..] => *first != b'-',
    }
}
