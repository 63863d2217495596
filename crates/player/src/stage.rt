// What the office plays on.
ghost use Rattle.std.specs.Prelude.{◌≡◌, false};
ghost use Rattle.deals.specs.Disk.{Back};
ghost use Rattle.script.specs.declared.Output.TheVariants.{Cut};
ghost use Rattle.player.specs.Loans.{SameLoans};
ghost use Rattle.player.specs.Playing.{SaysTold};

use crate::sink::Sink;
use deals::{Answer, Power};
use script::Output;

/// The disk, the room in memory, and where what is printed goes. All three are lent.
#[derive(Drop)]
pub struct Stage<'a, D, S> {
    pub disk: &'a mut D,
    pub room: &'a mut [u64],
    pub out: &'a mut S,
}

impl<'a, D, S> Stage<'a, D, S> {
    /// One lifetime stands for the three loans.
    pub fn new(disk: &'a mut D, room: &'a mut [u64], out: &'a mut S) -> Stage<'a, D, S>
        ensures { (result.disk ≡ disk.entry) × (result.room ≡ room.entry) × (result.out ≡ out.entry) }
    {
        Stage { disk, room, out }
    }
}

impl<D, S: Sink> Stage<'_, D, S> {
    /// What a turn told is printed.
    pub fn print(&mut self, told: Option<(u32, Answer)>)
        ensures told { SaysTold S.Sink told self.old.out.now self.new.out.now }
        ensures disk { self.new.disk.now ≡ self.old.disk.now }
        ensures lent { SameLoans self.old self.new }
    {
        if let Some((who, answer)) = told {
            self.out.put(Output::Told { who, answer });
        }
    }
}

impl<D: Power, S: Sink> Stage<'_, D, S> {
    /// The power has gone: that is told, and it comes back.
    pub fn come_back(&mut self)
        requires { (D.disk self.old.disk.now).on ≡ false }
        ensures told { S.said self.old.out.now Cut self.new.out.now }
        ensures back { Back (D.disk self.old.disk.now) (D.disk self.new.disk.now) }
        ensures lent { SameLoans self.old self.new }
    {
        self.out.put(Output::Cut);
        self.disk.back(self.room);
    }
}
