// Reading a manifest into memory that the caller lends.
ghost use Rattle.std.specs.Prelude.{◌≡◌, length};
ghost use Rattle.manifest.specs.Books.{read_manifest};
ghost use Rattle.manifest.specs.Outcomes.{manifest_outcome, book_shown};

use super::limits::{RULES, STATEMENTS, WORDS};
use super::manifest::Manifest;
use super::reader::Reader;
use super::rule::{Rule, Statement};
use lists::GrowList;
use terms::{Place, Refusal};

// What a manifest says, or the first refusal: memory too short for 64 rules, 128 statements or 5,120 words, then the first line that breaks a rule.
// Behind the end of what is handed back, and after a refusal, the memory is free.
pub fn read_manifest<'t, 'r, 's, 'w>(
    text: &'t [u8],
    rules: &'r mut [Rule],
    statements: &'s mut [Statement],
    words: &'w mut [Place],
) -> Result<Manifest<'t, 'r, 's, 'w>, Refusal>
    ensures { book_shown result ≡ manifest_outcome (length rules.old) (length statements.old) (length words.old) (read_manifest text.now) }
{
    if rules.len() < RULES {
        return Err(Refusal::MemoryShort(RULES));
    }
    if statements.len() < STATEMENTS {
        return Err(Refusal::MemoryShort(STATEMENTS));
    }
    if words.len() < WORDS {
        return Err(Refusal::MemoryShort(WORDS));
    }
    let mut reader = Reader {
        rules: GrowList::new(rules),
        statements: GrowList::new(statements),
        words: GrowList::new(words),
        owner: None,
    };
    reader.read_lines(text)?;
    Ok(Manifest {
        text,
        rules: reader.rules.into_slice(),
        statements: reader.statements.into_slice(),
        words: reader.words.into_slice(),
    })
}
