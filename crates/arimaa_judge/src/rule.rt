//! The rules that a line of a record can break.
ghost use Rattle.std.specs.Prelude.{◌≡◌};
ghost use Rattle.arimaa_judge.specs.Texts.{rule_word};

/// What is wrong with a line of a record. For a line that breaks several rules it is the first of
/// them, in this order; `Form` has two places in it.
///
/// A line without content, empty or a comment, breaks none.
#[derive(Clone, Copy, Debug, PartialEq, Eq)]
pub enum Rule {
    /// A closing line or a label alone came before: nothing may follow.
    After,
    /// The line has none of the forms of a record's lines.
    Text,
    /// A turn of more than four steps.
    Steps,
    /// A start line that is not the first line with content; or, tested after `Takeback`, a setup
    /// where a turn is due, or a turn where a setup is due. Setups are due until the game has a
    /// position.
    Form,
    /// A start line whose text is no board, or one whose board cannot stand.
    Start,
    /// Another label than the one due. A start line may have any.
    Number,
    /// The rules have ended the game, and the line is more than a label.
    Over,
    /// A takeback where no turn stands. Setups and start lines are not taken back.
    Takeback,
    /// The entries of a setup line are not each home square of the side once, with exactly its
    /// army.
    Setup,
    /// The first step that is refused: its square does not hold the named piece.
    Piece,
    /// At that step: the next square is off the board or not empty.
    Target,
    /// At that step: a push stands open, and the step does not complete it.
    OpenPush,
    /// At that step: an enemy piece whose step neither ends a pull nor begins a push.
    Dislodge,
    /// At that step: the piece is frozen.
    Frozen,
    /// At that step: a rabbit goes backward.
    Rabbit,
    /// No step is refused, and a removal mark is missing, wrong or out of place.
    Mark,
    /// The turn ends within a push.
    Unfinished,
    /// The turn leaves the board as it was.
    Same,
    /// What the turn brings about stands twice already, with the same side to move.
    Repeat,
}

impl Rule {
    /// The word that names the rule in a text.
    pub fn word(self) -> &'static [u8]
        ensures { result.now ≡ rule_word self }
    {
        match self {
            Rule::After => b"after",
            Rule::Text => b"text",
            Rule::Steps => b"steps",
            Rule::Form => b"form",
            Rule::Start => b"start",
            Rule::Number => b"number",
            Rule::Over => b"over",
            Rule::Takeback => b"takeback",
            Rule::Setup => b"setup",
            Rule::Piece => b"piece",
            Rule::Target => b"target",
            Rule::OpenPush => b"openpush",
            Rule::Dislodge => b"dislodge",
            Rule::Frozen => b"frozen",
            Rule::Rabbit => b"rabbit",
            Rule::Mark => b"mark",
            Rule::Unfinished => b"unfinished",
            Rule::Same => b"same",
            Rule::Repeat => b"repeat",
        }
    }
}
