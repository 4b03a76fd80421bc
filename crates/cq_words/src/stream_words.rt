//! The words of the command that reads ahead.
ghost use Rattle.std.specs.Prelude.{◌≡◌, ◌∷◌, [], IfSome, None, Some, map, option_map, string_bytes};
ghost use Rattle.cq_words.specs.Streamed.{run_of, streamed as words_streamed};
ghost use Rattle.cq_words.specs.Words.{command_for};
ghost use Rattle.cq_words.specs.declared.command.Command.TheVariants.{Run};

use crate::judge::is_value;

/// The configuration of the words `stream CONFIG`, and None of any others. Such words are no command, and
/// with `run` in place of `stream` they are that of the configuration.
#[tactic(auto, using(crate::proofs::Streaming::not_two))]
pub fn streamed(words: &[String]) -> Option<&str>
    ensures streamed { option_map (λ config. config.now) result ≡ words_streamed (map string_bytes words.now) }
    ensures other { IfSome result (λ _. command_for (map string_bytes words.now) ≡ None) }
    ensures runs { IfSome result (λ config. command_for (run_of config.now) ≡ Some (Run config.now)) }
{
    match words {
        [word, config] => form_streamed(word.as_str(), config.as_str()),
        _ => None,
    }
}

#[tactic(auto, using(crate::proofs::Streaming::other, crate::proofs::Streaming::runs))]
fn form_streamed<'a>(word: &str, config: &'a str) -> Option<&'a str>
    ensures streamed { option_map (λ c. c.now) result ≡ words_streamed (word.now ∷ config.now ∷ []) }
    ensures other { IfSome result (λ _. command_for (word.now ∷ config.now ∷ []) ≡ None) }
    ensures runs { IfSome result (λ c. command_for (run_of c.now) ≡ Some (Run c.now)) }
{
    if word == "stream" && is_value(config) {
        Some(config)
    } else {
        None
    }
}
