use command::command::Command;
use command::mnemonic::Mnemonic;
use desk::Desk;

/// A command whose mnemonic is known, over the desk alone: these rules look at no drive.
#[derive(Clone, Copy)]
pub(crate) struct DeskCase<'a> {
    pub desk: &'a Desk,
    pub m: Mnemonic,
    pub command: &'a Command<'a>,
}
