// Reading a manifest, line by line.
ghost use Rattle.std.specs.Prelude.{◌≡◌, ℕ, ◌+◌, ◌<◌, ◌≤◌, false, List, map, length, take, drop, if◌then◌else◌, Some, None, Ok, Err};
ghost use Rattle.lists.specs.Grown.{items, room};
ghost use Rattle.words.specs.Line.{line_bytes};
ghost use Rattle.words.specs.Lines.{lines_of};
ghost use Rattle.words.specs.Tokens.{tokens};
ghost use Rattle.words.specs.Spelling.{name_at};
ghost use Rattle.manifest.specs.declared.fault.Fault.TheVariants.{MadeTwice};
ghost use Rattle.manifest.specs.Building.{rule_of, build_of};
ghost use Rattle.manifest.specs.Books.{rule_number, twice, is_over, add_statement, declared_by, stated_by, read_rule, read_build, read_indented, read_line, read_lines, keeping};
ghost use Rattle.manifest.specs.Groups.{built_shown, word_name, WordSums, BuildSums};
ghost use Rattle.manifest.specs.Kept.{book_of, reading_of};
ghost use Rattle.terms.specs.Faulty.{told};
ghost use Rattle.manifest.specs.Outcomes.{refused};
ghost use Rattle.manifest.specs.Views.{declaration};

use super::binding::binding_at;
use super::build::{build_at, rule_at};
use super::built::Built;
use super::fault::Fault;
use super::kind::Kind;
use super::limits::{INPUTS, LONGEST, OUTPUTS, RULES, STATEMENTS};
use super::line::kind_at;
use super::makers::{made_twice, rule_number};
use super::owner::Owner;
use super::reader::Reader;
use super::rule::{Rule, Statement};
use super::store::store;
use lists::{GrowList, part};
use terms::{At, Refusal};
use words::{Line, Path, TextLines, Word};

// Whether a build line has more than 8 outputs, 32 inputs in all or 120 bytes in a name.
fn over_limit(bytes: &[u8], built: &Built) -> bool
    requires { BuildSums bytes.now (Some built.now) }
    ensures { result ≡ is_over (built_shown bytes.now built.now) }
{
    let plain = built.inputs.plain;
    let implicit = built.inputs.implicit;
    let order = built.inputs.order;
    let inputs = plain.count.min(INPUTS + 1)
        + implicit.count.min(INPUTS + 1)
        + order.count.min(INPUTS + 1);
    let long = built.outputs.long || plain.long || implicit.long || order.long;
    built.outputs.count > OUTPUTS || inputs > INPUTS || long
}

// The last rule keeps deps from now on.
fn keep_last(rules: &mut GrowList<Rule>)
    ensures kept { (text : List ℕ) → map (declaration text) (items rules.new) ≡ keeping (map (declaration text) (items rules.old)) }
    ensures room { room rules.new ≡ room rules.old }
{
    let Some(last) = rules.as_slice().last().copied() else {
        return;
    };
    let rule = Rule {
        keeps: true,
        ..last
    };
    rules.put(rules.len() - 1, rule);
}

impl Reader<'_, '_, '_> {
    // Declares a rule.
    fn declare(&mut self, text: &[u8], word: Word) -> Result<(), Fault>
        requires { word.length ≡ length (name_at text.now word.place) }
        ensures { told result (reading_of text.now self.new) ≡ declared_by (book_of text.now self.old) (name_at text.now word.place) (rule_number (book_of text.now self.old).rules (name_at text.now word.place)) }
    {
        let name = Path::Spelled(word.place.of(text));
        if rule_number(text, self.rules.as_slice(), name).is_some() {
            return Err(Fault::RuleDeclared);
        }
        if self.rules.len() >= RULES {
            return Err(Fault::PastLimit);
        }
        if word.length > LONGEST {
            return Err(Fault::PastLimit);
        }
        self.rules
            .push(Rule {
                name: word.place,
                keeps: false,
            })
            .unwrap();
        self.owner = Some(Owner::LastRule);
        Ok(())
    }

    fn read_rule(&mut self, line: Line) -> Result<(), Fault>
        ensures { told result (reading_of line.entry.text.now self.new) ≡ read_rule (book_of line.entry.text.now self.old) (rule_of (tokens (line_bytes line.entry))) }
    {
        let word = rule_at(line.front(), line.at).ok_or(Fault::NotUnderstood)?;
        self.declare(line.text, word)
    }

    // Adds a statement whose line is within the limits. It is pushed before its outputs are looked at, so that its words are never without it: where one is made
    // twice, nothing more is read.
    fn add_statement(&mut self, line: Line, rule: usize, built: &Built) -> Result<(), Fault>
        requires few { length (items self.old.statements) < 128 }
        requires sums { BuildSums (take line.end line.text.now) (Some built.now) }
        requires limit { is_over (built_shown (take line.end line.text.now) built.now) ≡ false }
        ensures { told result (reading_of line.entry.text.now self.new) ≡ (if twice (book_of line.entry.text.now self.old).statements (built_shown (take line.entry.end line.entry.text.now) built.now).outputs then Err MadeTwice else Ok (add_statement line.entry.number (book_of line.entry.text.now self.old) rule (built_shown (take line.entry.end line.entry.text.now) built.now))) }
    {
        let before = self.statements.len();
        let first = self.words.len();
        store(&mut self.words, line, built.outputs.at);
        store(&mut self.words, line, built.inputs.plain.at);
        store(&mut self.words, line, built.inputs.implicit.at);
        store(&mut self.words, line, built.inputs.order.at);
        self.statements
            .push(Statement {
                line: line.number,
                rule,
                first,
                outputs: built.outputs.count,
                plain: built.inputs.plain.count,
                implicit: built.inputs.implicit.count,
                order: built.inputs.order.count,
            })
            .unwrap();
        self.owner = Some(Owner::LastStatement);
        let words = self.words.as_slice();
        let others = part(self.statements.as_slice(), 0, before);
        let outputs = part(words, first, built.outputs.count);
        if made_twice(line.text, others, words, outputs) {
            return Err(Fault::MadeTwice);
        }
        Ok(())
    }

    // Adds a statement that is understood.
    fn state(&mut self, line: Line, built: &Built) -> Result<(), Fault>
        requires { BuildSums (take line.end line.text.now) (Some built.now) }
        ensures { told result (reading_of line.entry.text.now self.new) ≡ stated_by line.entry.number (book_of line.entry.text.now self.old) (built_shown (take line.entry.end line.entry.text.now) built.now) (rule_number (book_of line.entry.text.now self.old).rules (word_name (take line.entry.end line.entry.text.now) built.now.rule)) }
    {
        let bytes = line.front();
        let name = Path::Spelled(built.rule.place.of(bytes));
        let rule = rule_number(line.text, self.rules.as_slice(), name).ok_or(Fault::RuleDeclared)?;
        if self.statements.len() >= STATEMENTS {
            return Err(Fault::PastLimit);
        }
        if over_limit(bytes, built) {
            return Err(Fault::PastLimit);
        }
        self.add_statement(line, rule, built)
    }

    fn read_build(&mut self, line: Line) -> Result<(), Fault>
        ensures { told result (reading_of line.entry.text.now self.new) ≡ read_build line.entry.number (book_of line.entry.text.now self.old) (build_of (tokens (line_bytes line.entry))) }
    {
        let built = build_at(line.front(), line.at).ok_or(Fault::NotUnderstood)?;
        self.state(line, &built)
    }

    fn read_indented(&mut self, line: Line) -> Result<(), Fault>
        ensures { told result (reading_of line.entry.text.now self.new) ≡ read_indented (line_bytes line.entry) (book_of line.entry.text.now self.old) self.old.owner }
    {
        match self.owner {
            None => Err(Fault::NotUnderstood),
            Some(Owner::LastStatement) => Ok(()),
            Some(Owner::LastRule) => {
                if binding_at(line.front(), line.at).ok_or(Fault::NotUnderstood)? {
                    keep_last(&mut self.rules);
                }
                Ok(())
            }
        }
    }

    fn read_line(&mut self, line: Line) -> Result<(), Fault>
        ensures { told result (reading_of line.entry.text.now self.new) ≡ read_line line.entry.number (line_bytes line.entry) (reading_of line.entry.text.now self.old) }
    {
        match kind_at(line.front(), line.at) {
            Kind::Skipped => Ok(()),
            Kind::Unclear => Err(Fault::NotUnderstood),
            Kind::Indented => self.read_indented(line),
            Kind::Rule => self.read_rule(line.from(line.at + 5)),
            Kind::Build => self.read_build(line.from(line.at + 6)),
        }
    }

    // Reads all lines.
    pub(super) fn read_lines(&mut self, text: &[u8]) -> Result<(), Refusal>
        ensures { told result (reading_of text.now self.new) ≡ refused (read_lines 1 (lines_of text.now) (reading_of text.now self.old)) }
    {
        for line in TextLines::of(text) {
            self.read_line(line).map_err(|value| At {
                offset: line.number,
                value,
            })?;
        }
        Ok(())
    }
}
