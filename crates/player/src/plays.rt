// What each command does.
ghost use Rattle.std.specs.Prelude.{◌≡◌, ℕ, ◌+◌, ◌<◌, ◌≤◌, ◌↔◌, ◌⊎◌, option_and_then, false, Ok, Some, Option, true, IsOk, IsErr, OnErr, OnOk, IsSome, IsNone, IfSome, IfNone, ◌≢◌, nat_le, slice_index_or};
ghost use Rattle.std.specs.Option.{option_map_or};
ghost use Rattle.deals.specs.declared.Answer.{Answer as Tells};
ghost use Rattle.script.specs.declared.Command.{Command as Line};
ghost use Rattle.script.specs.declared.Output.TheVariants.{Busy, BadLine};
ghost use Rattle.script.specs.Text.{Fits, text_of};
ghost use Rattle.player.specs.declared.seats.Seat.TheVariants.{Free};
ghost use Rattle.player.specs.Seating.{is_asked, asked, nobody};
ghost use Rattle.player.specs.Loans.{SameLoans};
ghost use Rattle.player.specs.Playing.{Asking, Turn, Step, Opens, Restarts, WaitsTurn, Waited, Happens, Asks, Look, ReadsOn, BookRead, Plays, pair_in, found_in, after_turn};
ghost use Rattle.player.specs.Turning.{HasTurns, Same, turns_of, lives_of, desk_of, Waits};

use crate::engine::Engine;
use crate::lives::Life;
use crate::power::Cuts;
use crate::seats::Seats;
use crate::sink::Sink;
use crate::stage::Stage;
use clerk::Clerk;
use deals::{Answer, Gone, Op, Power};
use memdisk::NoRoom;
use script::{Command, Output, ParseError};

// How many turns a clerk is waited for.
const PATIENCE: u64 = 64;

// How much one deal reads of the book.
const READINGS: u64 = 1_000;

// A command that isn't played. Nothing has changed then.
#[derive(Clone, Copy, Debug, PartialEq, Eq)]
struct Refused;

impl From<ParseError> for Refused {
    fn from(_: ParseError) -> Refused {
        Refused
    }
}

impl From<NoRoom> for Refused {
    fn from(_: NoRoom) -> Refused {
        Refused
    }
}

// The pair that was told, if it was one.
fn pair_in(told: Option<Answer>) -> Option<(u64, u64)>
    ensures { result ≡ pair_in told }
{
    match told {
        Some(Answer::Pair(key, word)) => Some((key, word)),
        _ => None,
    }
}

// What was found at a key, if that was told.
fn found_in(told: Option<Answer>) -> Option<Option<u64>>
    ensures { result ≡ found_in told }
{
    match told {
        Some(Answer::Word(word)) => Some(Some(word)),
        Some(Answer::Missing) => Some(None),
        _ => None,
    }
}

#[derive(Drop)]
pub struct Player<O> {
    // None when the last one has ended
    life: Option<Life<O>>,
    seats: Seats,
}

impl<O: Engine> Player<O> {
    /// The first life; None where the power went in each.
    pub fn begin<D: Power, S: Sink>(stage: &mut Stage<'_, D, S>) -> Option<Player<O>>
        ensures played { Opens O.Engine S.Sink 0 (option_map_or (λ player. lives_of player.life) result 16777215) (option_and_then (λ player. (desk_of player).office) result) stage.old.out.now stage.new.out.now }
        ensures seats { IfSome result (λ player. player.seats ≡ nobody) }
        ensures lent { SameLoans stage.old stage.new }
    {
        let life = stage.next_life(0)?;
        Some(Player {
            life: Some(life),
            seats: Seats::all_free(),
        })
    }

    // Refused where too few turns are left, or no life is.
    fn need_turns(&self, n: u64) -> Result<(), Refused>
        ensures { IsOk result ↔ HasTurns n self.now.life }
    {
        match &self.life {
            Some(life) if life.has_turns(n) => Ok(()),
            _ => Err(Refused),
        }
    }

    fn ask(&mut self, room: &mut [u64], who: Clerk, op: Op)
        requires { IsSome self.old.life }
        ensures asked { Step O.Engine (Asking who op) (desk_of self.old) (desk_of self.new) }
        ensures seats { self.new.seats ≡ asked who op self.old.seats }
        ensures turns { turns_of self.new.life ≡ turns_of self.old.life }
        ensures life { Same self.old self.new }
    {
        self.seats.ask(who, op);
        self.life.as_mut().unwrap().ask(room, who, op);
    }

    fn turn<D: Power, S: Sink>(
        &mut self,
        stage: &mut Stage<'_, D, S>,
    ) -> Result<Option<(u32, Answer)>, Gone>
        requires { HasTurns 1 self.old.life }
        ensures turned { Step O.Engine (Turn result) (desk_of self.old) (desk_of self.new) }
        ensures out { stage.new.out.now ≡ stage.old.out.now }
        ensures seats { self.new.seats ≡ after_turn result self.old.seats }
        ensures turns { turns_of self.new.life ≡ turns_of self.old.life + 1 }
        ensures life { Same self.old self.new }
        ensures gone { IsErr result → (D.disk stage.new.disk.now).on ≡ false }
        ensures lent { SameLoans stage.old stage.new }
    {
        let told = self.life.as_mut().unwrap().turn(stage.disk, stage.room)?;
        if let Some((who, answer)) = told {
            self.seats.tell(who, answer);
        }
        Ok(told)
    }

    // The power has gone: it comes back, and the office opens again with nobody's deal.
    fn restart<D: Power, S: Sink>(&mut self, stage: &mut Stage<'_, D, S>)
        requires { (D.disk stage.old.disk.now).on ≡ false }
        ensures played { Restarts O.Engine S.Sink (desk_of self.old) (desk_of self.new) stage.old.out.now stage.new.out.now }
        ensures seats { self.new.seats ≡ nobody }
        ensures later { IfSome self.new.life (λ life. (lives_of self.old.life < life.number) × (life.turns ≡ 0)) }
        ensures lent { SameLoans stage.old stage.new }
    {
        stage.come_back();
        self.seats = Seats::all_free();
        let past = self.life.as_ref().map_or(0, |life| life.number());
        self.life = stage.next_life(past);
    }

    // A turn while that clerk is waited for: its answer is given, and what another is told is printed.
    fn turn_for<D: Power, S: Sink>(
        &mut self,
        who: Clerk,
        stage: &mut Stage<'_, D, S>,
    ) -> Result<Option<Answer>, Gone>
        requires { HasTurns 1 self.old.life }
        ensures played { WaitsTurn O.Engine S.Sink who result (desk_of self.old) (desk_of self.new) stage.old.out.now stage.new.out.now }
        ensures turns { turns_of self.new.life ≡ turns_of self.old.life + 1 }
        ensures life { Same self.old self.new }
        ensures gone { IsErr result → (D.disk stage.new.disk.now).on ≡ false }
        ensures lent { SameLoans stage.old stage.new }
    {
        match self.turn(stage)? {
            Some((told, answer)) if told == who.number() => Ok(Some(answer)),
            Some(told) => {
                stage.print(Some(told));
                Ok(None)
            }
            None => Ok(None),
        }
    }

    // Turns until that clerk is told, or is waited for no longer; what others are told is printed.
    fn wait_for<D: Power, S: Sink>(
        &mut self,
        who: Clerk,
        stage: &mut Stage<'_, D, S>,
    ) -> Result<Option<Answer>, Gone>
        requires { HasTurns 64 self.old.life }
        ensures played { Waited O.Engine S.Sink who result (desk_of self.old) (desk_of self.new) stage.old.out.now stage.new.out.now }
        ensures waited { Waits result self.old self.new }
        ensures lent { SameLoans stage.old stage.new }
    {
        for _turn in 0..PATIENCE {
            match self.turn_for(who, stage) {
                Ok(None) => {}
                Ok(Some(answer)) => return Ok(Some(answer)),
                Err(gone) => {
                    self.restart(stage);
                    return Err(gone);
                }
            }
        }
        Ok(None)
    }

    // A clerk asks, and is waited for. Refused where too few turns are left for that.
    fn play_ask<D: Power, S: Sink>(
        &mut self,
        who: Clerk,
        op: Op,
        stage: &mut Stage<'_, D, S>,
    ) -> Result<(), Refused>
        ensures busy { is_asked (slice_index_or self.old.seats who Free) ≡ true → S.said stage.old.out.now (Busy who) stage.new.out.now × (self.new ≡ self.old) × IsOk result }
        ensures plays { OnOk result (Plays O.Engine S.Sink (Line.Ask who op) (desk_of self.old) (desk_of self.new) stage.old.out.now stage.new.out.now) }
        ensures played { is_asked (slice_index_or self.old.seats who Free) ≡ false → IsOk result ↔ HasTurns 64 self.old.life }
        ensures refused { OnErr result ((self.new ≡ self.old) × (stage.new.out.now ≡ stage.old.out.now)) }
        ensures lent { SameLoans stage.old stage.new }
    {
        if self.seats.is_busy(who) {
            stage.out.put(Output::Busy(who.number()));
            return Ok(());
        }
        self.need_turns(PATIENCE)?;
        self.ask(stage.room, who, op);
        match self.wait_for(who, stage) {
            Ok(Some(answer)) => stage.print(Some((who.number(), answer))),
            // It's busy from now on.
            Ok(None) => {}
            // What it asked is forgotten.
            Err(Gone) => {}
        }
        Ok(())
    }

    // Refused where fewer turns are left. After a cut they go on in the next life.
    fn play_turns<D: Power, S: Sink>(
        &mut self,
        n: u64,
        stage: &mut Stage<'_, D, S>,
    ) -> Result<(), Refused>
        ensures plays { OnOk result (Plays O.Engine S.Sink (Line.Turn n) (desk_of self.old) (desk_of self.new) stage.old.out.now stage.new.out.now) }
        ensures played { IsOk result ↔ HasTurns n self.old.life }
        ensures refused { OnErr result ((self.new ≡ self.old) × (stage.new.out.now ≡ stage.old.out.now)) }
        ensures lent { SameLoans stage.old stage.new }
    {
        self.need_turns(n)?;
        for _turn in 0..n {
            match self.turn(stage) {
                Ok(told) => stage.print(told),
                Err(Gone) => {
                    self.restart(stage);
                    if self.life.is_none() {
                        return Ok(());
                    }
                }
            }
        }
        Ok(())
    }

    // Refused where no more cuts can be set.
    fn play_cut<D: Power + Cuts, S: Sink>(
        &mut self,
        after: u64,
        choice: u64,
        stage: &mut Stage<'_, D, S>,
    ) -> Result<(), Refused>
        ensures plays { OnOk result (Plays O.Engine S.Sink (Line.Cut after choice) (desk_of self.old) (desk_of self.new) stage.old.out.now stage.new.out.now) }
        ensures later { 0 < after → (self.new ≡ self.old) × (stage.new.out.now ≡ stage.old.out.now) }
        ensures soon { after ≡ 0 → OnOk result (self.new.seats ≡ nobody) }
        ensures refused { OnErr result ((self.new ≡ self.old) × (stage.new.out.now ≡ stage.old.out.now)) }
        ensures lent { SameLoans stage.old stage.new }
    {
        stage.disk.set_cut(after, choice)?;
        if after == 0 {
            self.restart(stage);
        }
        Ok(())
    }

    // What the reader is told for one asking; None where it isn't told.
    fn answer_to<D: Power, S: Sink>(
        &mut self,
        reader: Clerk,
        op: Op,
        stage: &mut Stage<'_, D, S>,
    ) -> Option<Answer>
        requires idle { is_asked (slice_index_or self.old.seats reader Free) ≡ false }
        requires turns { HasTurns 64 self.old.life }
        ensures played { Happens O.Engine S.Sink (Asks reader op result) (desk_of self.old) (desk_of self.new) stage.old.out.now stage.new.out.now }
        ensures waited { IfSome result (λ a. Waits (Ok (Some a)) self.old self.new) }
        ensures lent { SameLoans stage.old stage.new }
    {
        self.ask(stage.room, reader, op);
        self.wait_for(reader, stage).ok().flatten()
    }

    // The same; None too where the reader can't ask.
    fn look<D: Power, S: Sink>(
        &mut self,
        reader: Clerk,
        op: Op,
        stage: &mut Stage<'_, D, S>,
    ) -> Option<Answer>
        ensures played { Happens O.Engine S.Sink (Look reader op result) (desk_of self.old) (desk_of self.new) stage.old.out.now stage.new.out.now }
        ensures waited { IfSome result (λ a. Waits (Ok (Some a)) self.old self.new) }
        ensures lent { SameLoans stage.old stage.new }
    {
        if self.seats.is_busy(reader) {
            return None;
        }
        self.need_turns(PATIENCE).ok()?;
        self.answer_to(reader, op, stage)
    }

    // Prints the pairs above key 0, until the reader is told anything else than a pair.
    fn read_on<D: Power, S: Sink>(&mut self, reader: Clerk, stage: &mut Stage<'_, D, S>)
        ensures played { Happens O.Engine S.Sink (ReadsOn reader) (desk_of self.old) (desk_of self.new) stage.old.out.now stage.new.out.now }
        ensures lent { SameLoans stage.old stage.new }
    {
        let mut key: u64 = 0;
        // A deal reads only so many and is then undone, so this counts what one deal has read: at first its look at key 0.
        let mut readings: u64 = 1;
        while let Some((k, word)) = pair_in(self.look(reader, Op::Next(key), stage)) {
            stage.out.put(Output::Entry(k, word));
            key = k;
            readings += 1;
            if readings == READINGS {
                if self.look(reader, Op::Undo, stage).is_none() {
                    return;
                }
                readings = 0;
            }
        }
    }

    // Prints the book from key 0 on.
    fn read_book<D: Power, S: Sink>(&mut self, reader: Clerk, stage: &mut Stage<'_, D, S>)
        requires idle { is_asked (slice_index_or self.old.seats reader Free) ≡ false }
        requires turns { HasTurns 64 self.old.life }
        ensures played { Happens O.Engine S.Sink (BookRead reader) (desk_of self.old) (desk_of self.new) stage.old.out.now stage.new.out.now }
        ensures lent { SameLoans stage.old stage.new }
    {
        match found_in(self.answer_to(reader, Op::Get(0), stage)) {
            Some(Some(word)) => {
                stage.out.put(Output::Entry(0, word));
                self.read_on(reader, stage);
            }
            Some(None) => self.read_on(reader, stage),
            None => {}
        }
    }

    // The reader's deal is undone, if it has one.
    fn end_reading<D: Power, S: Sink>(&mut self, reader: Clerk, stage: &mut Stage<'_, D, S>)
        ensures played { (r : Option Tells) × Happens O.Engine S.Sink (Look reader Op.Undo r) (desk_of self.old) (desk_of self.new) stage.old.out.now stage.new.out.now }
        ensures lent { SameLoans stage.old stage.new }
    {
        if self.seats.is_dealing(reader) {
            let _ = self.look(reader, Op::Undo, stage);
        }
    }

    // Refused where too few turns are left to begin.
    fn play_book<D: Power, S: Sink>(&mut self, stage: &mut Stage<'_, D, S>) -> Result<(), Refused>
        ensures plays { OnOk result (Plays O.Engine S.Sink Line.Book (desk_of self.old) (desk_of self.new) stage.old.out.now stage.new.out.now) }
        ensures refused { OnErr result ((self.new ≡ self.old) × (stage.new.out.now ≡ stage.old.out.now)) }
        ensures lent { SameLoans stage.old stage.new }
    {
        let Some(reader) = self.seats.first_free() else {
            stage.out.put(Output::End);
            return Ok(());
        };
        self.need_turns(PATIENCE)?;
        self.read_book(reader, stage);
        self.end_reading(reader, stage);
        stage.out.put(Output::End);
        Ok(())
    }

    fn play<D: Power + Cuts, S: Sink>(
        &mut self,
        command: Command,
        stage: &mut Stage<'_, D, S>,
    ) -> Result<(), Refused>
        requires { Fits command }
        ensures plays { OnOk result (Plays O.Engine S.Sink command (desk_of self.old) (desk_of self.new) stage.old.out.now stage.new.out.now) }
        ensures refused { OnErr result ((self.new ≡ self.old) × (stage.new.out.now ≡ stage.old.out.now)) }
        ensures ended { IsNone self.old.life → IsErr result }
        ensures lent { SameLoans stage.old stage.new }
    {
        if self.life.is_none() {
            return Err(Refused);
        }
        match command {
            Command::Ask { who, op } => self.play_ask(who, op, stage),
            Command::Turn(n) => self.play_turns(n, stage),
            Command::Cut { after, choice } => self.play_cut(after, choice, stage),
            Command::Book => self.play_book(stage),
        }
    }

    // Refused where the line has no command, too.
    fn play_text<D: Power + Cuts, S: Sink>(
        &mut self,
        line: &[u8],
        stage: &mut Stage<'_, D, S>,
    ) -> Result<(), Refused>
        ensures plays { OnOk result ((c : Line) × Fits c × (line.now ≡ text_of c) × Plays O.Engine S.Sink c (desk_of self.old) (desk_of self.new) stage.old.out.now stage.new.out.now) }
        ensures bad { ((c : Line) → Fits c → line.now ≢ text_of c) → IsErr result }
        ensures refused { OnErr result ((self.new ≡ self.old) × (stage.new.out.now ≡ stage.old.out.now)) }
        ensures lent { SameLoans stage.old stage.new }
    {
        let command = Command::try_from(line)?;
        self.play(command, stage)
    }

    /// Plays the line of that number.
    pub fn play_line<D: Power + Cuts, S: Sink>(
        &mut self,
        number: u64,
        line: &[u8],
        stage: &mut Stage<'_, D, S>,
    )
        ensures plays { ((c : Line) × Fits c × (line.now ≡ text_of c) × Plays O.Engine S.Sink c (desk_of self.old) (desk_of self.new) stage.old.out.now stage.new.out.now) ⊎ (S.said stage.old.out.now (BadLine number) stage.new.out.now × (self.new ≡ self.old)) }
        ensures bad { ((c : Line) → Fits c → line.now ≢ text_of c) → S.said stage.old.out.now (BadLine number) stage.new.out.now × (self.new ≡ self.old) }
        ensures lent { SameLoans stage.old stage.new }
    {
        if self.play_text(line, stage).is_err() {
            stage.out.put(Output::BadLine(number));
        }
    }
}
