// Reading the commands of a line one after another.
ghost use Rattle.std.specs.Prelude.{◌≡◌, ◌+◌, ◌^◌, ◌<◌, ◌≤◌, [], length, IfSome, IfNone, OnSome, Some};
ghost use Rattle.std.specs.List.{sum_by};
ghost use Rattle.command.specs.Commands.{least_size, commands_of};
ghost use Rattle.command.specs.Held.{left_of};
ghost use Rattle.command.specs.Laws.{taken, CommandsPlaced};
ghost use Rattle.command.specs.Views.{said, to_come, end_of, room_left, comes, seen_line_left};

use crate::command::Command;
use crate::commands::Commands;
use crate::parts::Parts;
use crate::reading::read_command;
use crate::span::Span;

/// States where the commands of a line stand; there is nothing to do.
fn commands_placed(line: &[u8])
    ensures { CommandsPlaced line.now }
{}

impl<'a> Commands<'a> {
    /// The commands of a line.
    #[tactic(auto, using(crate::proofs::Least::commands_fit, crate::proofs::Least::commands_few), unfolding(crate::specs::Commands::commands_from))]
    pub fn of(line: &'a [u8]) -> Commands<'a>
        ensures all { to_come result ≡ commands_of line.now }
        ensures left { seen_line_left result ≡ Some (1, line.now) }
        ensures end { end_of result ≡ length line.now + 1 }
        ensures room { room_left result ≡ length line.now + 1 }
        ensures placed { CommandsPlaced line.now }
        ensures sizes { sum_by taken (commands_of line.now) ≤ length line.now + 1 }
        ensures few { length (commands_of line.now) ≤ length line.now + 1 }
    {
        commands_placed(line);
        Commands {
            rest: Parts {
                rest: Some(Span {
                    bytes: line,
                    column: 1,
                }),
            },
        }
    }

    /// The next command; a part that is blank is skipped.
    #[tactic(auto, unfolding(crate::specs::Commands::in_front))]
    pub fn next_command(&mut self) -> Option<Command<'a>>
        ensures next { to_come self.old ≡ comes result (to_come self.new) }
        ensures done { IfNone result (to_come self.new ≡ []) }
        ensures room { IfSome result (λ c. c.rest.column + length c.rest.bytes.now ≤ 2 ^ 63) }
        ensures column { IfSome result (λ c. c.column < end_of self.old) }
        ensures within { IfSome result (λ c. c.rest.column + length c.rest.bytes.now ≤ end_of self.old) }
        ensures end { end_of self.new ≤ end_of self.old }
        ensures less { OnSome result (left_of self.new.rest < left_of self.old.rest) }
        ensures used { IfSome result (λ c. left_of self.new.rest + (least_size (said c) + 1) ≤ left_of self.old.rest) }
    {
        while let Some(part) = self.rest.next() {
            let text = part.trim();
            if !text.bytes.is_empty() {
                return Some(read_command(text));
            }
        }
        None
    }
}

impl<'a> Iterator for Commands<'a> {
    ghost use Rattle.std.specs.Iterator.{YieldsFirstBy, item_count};
    ghost use Rattle.command.specs.Views.{said, to_come};

    type Item = Command<'a>;

    ghost next_gives = { YieldsFirstBy said to_come };

    ghost remaining = { item_count to_come };

    fn next(&mut self) -> Option<Command<'a>> {
        self.next_command()
    }
}
