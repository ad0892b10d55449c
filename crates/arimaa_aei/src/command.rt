//! What a controller sends to an engine.
use arimaa_board::{Noted, Position, Setup};
use thiserror::Error;

/// The name of an option that tells an engine about time, in whole seconds.
#[derive(Clone, Copy, Debug, PartialEq, Eq)]
pub enum OptionName {
    /// `tcmove`: the time for each turn.
    TcMove,
    /// `tcreserve`: the reserve at the start.
    TcReserve,
    /// `tcpercent`: the percent of unused time that is kept.
    TcPercent,
    /// `tcmax`: the limit of the reserve, 0 for none.
    TcMax,
    /// `tctotal`: the limit of the game, 0 for none.
    TcTotal,
    /// `tcturntime`: the limit of one turn, 0 for none.
    TcTurnTime,
    /// `greserve`: Gold's reserve now.
    GReserve,
    /// `sreserve`: Silver's reserve now.
    SReserve,
}

/// A line from a controller to an engine.
#[derive(Drop)]
pub enum Command {
    /// `aei`: begins a session.
    Aei,
    /// `isready`: asks whether the engine is ready.
    IsReady,
    /// `newgame`: begins a game.
    NewGame,
    /// `setposition`, a side and a board's text: sets the position of the game.
    SetPosition(Position),
    /// `setoption name`, a name, `value` and a number: sets an option.
    SetOption { name: OptionName, value: u64 },
    /// `makemove` and a turn: tells a turn that was made.
    MakeMove(Noted),
    /// `makemove` and a setup: tells a setup that was made.
    MakeSetup(Setup),
    /// `go`: asks for a setup or a turn.
    Go,
    /// `stop`: asks for the setup or the turn at once.
    Stop,
    /// `quit`: ends the session.
    Quit,
}

/// Why a controller's line is refused. The variants stand in the order in which they are tested.
#[derive(Debug, PartialEq, Eq, Drop, Error)]
pub enum CommandFault {
    /// The first word is none of the protocol's, or names an option that is not known.
    #[error("unknown command")]
    Unknown,
    /// What follows the first word is not what belongs there.
    #[error("wrong argument")]
    Argument,
}
