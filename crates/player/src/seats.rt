// Who has a deal, and who waits for an answer.
ghost use Rattle.std.specs.Prelude.{◌≡◌, slice_index_or};
ghost use Rattle.player.specs.Seating.{is_asked, is_dealing, after_answer, asked, told, nobody, FirstFree};

use clerk::{CLERKS, Clerk};
use deals::{Answer, Op};
use std::marker::Model;

/// The three states of a clerk. To be free is one of them and no missing value.
#[derive(Clone, Copy, Debug, PartialEq, Eq)]
pub enum Seat {
    // no deal, and nothing under way
    Free,
    // a deal, and nothing under way
    Dealing,
    // something is under way; does it end the deal
    Asked(bool),
}

/// A seat for each clerk. Clauses see them in the clerks' order.
#[derive(Drop)]
pub struct Seats {
    list: [Seat; CLERKS],
}

impl Model for Seats {
    ghost use Rattle.std.specs.Prelude.{List};
    ghost use Rattle.player.specs.declared.seats.Seat.{Seat};

    ghost Value = { List Seat };

    ghost view = { λ s. s.list };
}

impl Seat {
    // A deal ends when a commit or an undo is done, and by a clash.
    fn after(self, answer: Answer) -> Seat
        ensures { result ≡ after_answer self answer }
    {
        match (self, answer) {
            (_, Answer::Clash) | (Seat::Asked(true), Answer::Done) => Seat::Free,
            _ => Seat::Dealing,
        }
    }
}

impl Seats {
    pub fn all_free() -> Seats
        ensures { result ≡ nobody }
    {
        Seats {
            list: [Seat::Free; CLERKS],
        }
    }

    pub fn is_busy(&self, who: Clerk) -> bool
        ensures { result ≡ is_asked (slice_index_or self.now who Seat.Free) }
    {
        matches!(self.list[who.index()], Seat::Asked(_))
    }

    pub fn is_dealing(&self, who: Clerk) -> bool
        ensures { result ≡ is_dealing (slice_index_or self.now who Seat.Free) }
    {
        matches!(self.list[who.index()], Seat::Dealing)
    }

    pub fn ask(&mut self, who: Clerk, op: Op)
        ensures { self.new ≡ asked who op self.old }
    {
        self.list[who.index()] = Seat::Asked(op.is_end());
    }

    /// Nobody sits past the last clerk.
    pub fn tell(&mut self, who: u32, answer: Answer)
        ensures { self.new ≡ told who answer self.old }
    {
        if let Ok(clerk) = Clerk::try_from(who) {
            let seat = &mut self.list[clerk.index()];
            *seat = seat.after(answer);
        }
    }

    /// The first clerk who has no deal and nothing under way.
    pub fn first_free(&self) -> Option<Clerk>
        ensures { FirstFree self.now result }
    {
        let place = self
            .list
            .iter()
            .position(|seat| matches!(seat, Seat::Free))?;
        Some(Clerk::new(place as u32))
    }
}
