//! What the bot says to a line of its controller.
use arimaa_outside::Bytes;

/// What the bot says to a line.
#[derive(Drop)]
pub(crate) enum Reply {
    /// Nothing.
    Nothing,
    /// Who it is, to `aei`.
    Greeting,
    /// That it is ready.
    Ready,
    /// That a setup or a turn that it was told is not lawful.
    Illegal,
    /// That it doesn't know the line's first word.
    Unknown,
    /// That what follows the line's first word doesn't belong there.
    Argument,
    /// Its setup or its turn, or that it resigns.
    BestMove(Bytes),
}
