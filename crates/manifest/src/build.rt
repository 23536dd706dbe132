// Reading the words of a build line and of a rule line: of bytes from an offset on, and no slice from there on, since the places count from the bytes' start.
ghost use Rattle.std.specs.Prelude.{◌≡◌, drop};
ghost use Rattle.std.specs.Option.{option_map};
ghost use Rattle.words.specs.Tokens.{tokens};
ghost use Rattle.manifest.specs.Building.{inputs_of, build_of, rule_of};
ghost use Rattle.manifest.specs.Groups.{inputs_shown, built_shown, word_name, InputSums, BuildSums, WordSums};

use super::built::{Built, BuiltInputs};
use super::groups::{behind, group_at};
use super::limits::LEAST;
use words::{Token, Word, next_token};

// The inputs of a statement: words, then a bar and words, then two bars and words.
fn inputs_at(bytes: &[u8], at: usize) -> Option<BuiltInputs>
    ensures said { option_map (inputs_shown bytes.now) result ≡ inputs_of (tokens (drop at bytes.now)) }
    ensures sums { InputSums bytes.now result }
{
    let plain = group_at(bytes, at);
    let implicit = behind(bytes, plain, Token::Bar);
    let order = behind(bytes, implicit, Token::Bars);
    match order.mark {
        Token::End => Some(BuiltInputs {
            plain,
            implicit,
            order,
        }),
        _ => None,
    }
}

// What stands behind `build `; none where it is not understood.
pub(super) fn build_at(bytes: &[u8], at: usize) -> Option<Built>
    ensures said { option_map (built_shown bytes.now) result ≡ build_of (tokens (drop at bytes.now)) }
    ensures sums { BuildSums bytes.now result }
{
    let outputs = group_at(bytes, at);
    if outputs.count < LEAST {
        return None;
    }
    let Token::Colon = outputs.mark else {
        return None;
    };
    let (token, next) = next_token(bytes, outputs.next);
    let Token::Word(rule) = token else {
        return None;
    };
    let inputs = inputs_at(bytes, next)?;
    Some(Built {
        outputs,
        rule,
        inputs,
    })
}

// What stands behind `rule `: one word; none where it is not understood.
pub(super) fn rule_at(bytes: &[u8], at: usize) -> Option<Word>
    ensures said { option_map (word_name bytes.now) result ≡ rule_of (tokens (drop at bytes.now)) }
    ensures sums { WordSums bytes.now result }
{
    let (token, next) = next_token(bytes, at);
    let Token::Word(word) = token else {
        return None;
    };
    let (behind, _) = next_token(bytes, next);
    match behind {
        Token::End => Some(word),
        _ => None,
    }
}
