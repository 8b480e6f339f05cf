ghost use Rattle.std.specs.Prelude.{◌≡◌};
ghost use Rattle.command.specs.Commands.{capped};
ghost use Rattle.command.specs.Views.{said};
ghost use Rattle.rules.specs.Refusals as R;

use crate::naming;
use crate::view::View;
use command::command::Command;
use command::mnemonic::Mnemonic;
use drive::Drive;

/// A command whose mnemonic is known, over the desk and the drive that it is judged by.
#[derive_where(Clone, Copy)]
pub struct Case<'a, D> {
    pub view: View<'a, D>,
    pub m: Mnemonic,
    pub command: &'a Command<'a>,
}

impl<D: Drive> Case<'_, D> {
    ghost use Rattle.asked.specs.Seen.{seen};

    /// Its rest is a question mark, and it offers one.
    pub fn asks(&self) -> bool
        ensures { result ≡ R.asking self.now.m (said self.now.command.now) }
    {
        naming::asks(self.m, self.command)
    }

    /// The axis that it names, 1000 where it is larger; 0 where it names none.
    pub fn axis_named(&self) -> usize
        ensures { result ≡ capped (R.axis_named (said self.now.command.now)) }
    {
        naming::axis_named(self.command)
    }

    /// The group that it names, 1000 where it is larger; where there is one group, it may be left out.
    pub fn group_named(&self) -> usize
        ensures { result ≡ capped (R.group_named (seen D.Drive.axes self.now.view) (said self.now.command.now)) }
    {
        naming::group_named(self.view.desk, self.command)
    }
}
