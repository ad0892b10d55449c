//! What is told of a record.
ghost use Rattle.std.specs.Prelude.{◌≡◌, IfOk};
ghost use Rattle.arimaa_archive.specs.RecordJudgements.{is_bad, is_lawful, text_of_told, told_of};

use arimaa_judge::{Ending, Judged, Label, Rule, bad_text, lawful_text};
use std::alloc::{AllocError, Global};

/// What is told of a record: its judgement without the positions of its game.
#[derive(Clone, Copy, Debug, PartialEq, Eq)]
pub enum Told {
    /// Each line is fine where it stands.
    Lawful {
        /// The number of turn lines.
        turns: u64,
        /// How the game has ended, if it has: by a closing word, or else by the rules.
        ending: Option<Ending>,
        /// The label of the setup or turn that is due next.
        next: Label,
    },
    /// A line breaks a rule.
    Bad {
        /// The first such line, counted from 1 over all lines of the record.
        line: u64,
        /// The label that is due there.
        label: Label,
        /// The first rule that it breaks.
        rule: Rule,
    },
}

impl Told {
    /// What is told of a judgement.
    pub fn of(judged: &Judged) -> Told
        ensures { result ≡ told_of judged.now }
    {
        match judged {
            Judged::Lawful {
                turns,
                ending,
                next,
                ..
            } => Told::Lawful {
                turns: *turns,
                ending: *ending,
                next: *next,
            },
            Judged::Bad { line, label, rule } => Told::Bad {
                line: *line,
                label: *label,
                rule: *rule,
            },
        }
    }

    /// Whether the record is lawful.
    pub fn is_lawful(&self) -> bool
        ensures { result ≡ is_lawful self.now }
    {
        match self {
            Told::Lawful { .. } => true,
            Told::Bad { .. } => false,
        }
    }

    /// Whether it is bad.
    pub fn is_bad(&self) -> bool
        ensures { result ≡ is_bad self.now }
    {
        !self.is_lawful()
    }

    /// The text about the record, as the judge gives it.
    pub fn text(&self, alloc: Global) -> Result<Vec<u8>, AllocError>
        ensures { IfOk result (λ text. text.items ≡ text_of_told self.now) }
    {
        match self {
            Told::Lawful {
                turns,
                ending,
                next,
            } => lawful_text(alloc, *turns, *ending, *next),
            Told::Bad { line, label, rule } => bad_text(alloc, *line, *label, *rule),
        }
    }
}
