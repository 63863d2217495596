// The office over the ledger.
ghost use Rattle.std.specs.Prelude.{◌≡◌, ℕ, ◌+◌, ◌<◌, ◌≤◌, true, false, not, T, List, [], length, Some, Option, is_ok, MatchResult};
ghost use Rattle.node.specs.Pairs.{find};
ghost use Rattle.lines.specs.Tables.{deal_lines};
ghost use Rattle.view.specs.Writes.{with_lines};
ghost use Rattle.view.specs.Room.{Counts};
ghost use Rattle.ledger.specs.Ledger.{Pairs, Rests, Stands, Cut};
ghost use Rattle.deals.specs.Drives.{medium_of};
ghost use Rattle.deals.specs.declared.Op.{Op as Asks};
ghost use Rattle.deals.specs.declared.Answer.{Answer as Told};
ghost use Rattle.deals.specs.declared.Answer.TheVariants.{No};
ghost use Rattle.deals.specs.declared.engine.Office.{Office as Engine};
ghost use Rattle.deals.specs.Refusals.{number_of};
ghost use Rattle.deals.specs.Disk.{Disk, Back};
ghost use Rattle.deals.specs.Deals.{Book, Event, State, Quiet, Under, Over, ends, set_clerk};
ghost use Rattle.deals.specs.Promise.{can};
ghost use Rattle.deals.specs.Tables.{Sound, order_of};
ghost use Rattle.deals.specs.LineUps.{TablesHold, Picked};
ghost use Rattle.deals.specs.Paired.{as_word};
ghost use Rattle.deals.specs.Holds.{at_rest, Holds, Went};
ghost use Rattle.deals.specs.Sits.{Lasting, Sits, Seated, Answered, Worked, Toiled, Serving, GoesOn, Looked};

use super::desk::Telling;
use super::refusals::Refusal;
use super::tables::{Tables, TablesMut};
use super::tally::Tally;
use super::{Answer, Gone, Op, Pages};
use clerk::{CLERKS, Clerk};
use ledger::Ledger;
use locks::graph::Pick;

/// What the office keeps in a value, beside the room.
#[derive(Drop)]
pub struct Office {
    ledger: Ledger,
    tally: Tally,
}

/// What the office asks of the ledger. Its turns and lives are proved over whatever does these; the one over the ledger is still to come.
pub trait Acts {
    // The ledger comes up from what has lasted.
    fn raise<D: Pages>(d: &mut D, room: &mut [u64]) -> Result<Ledger, Gone>
        requires soon { 4194304 ≤ (D.disk d.old).left }
        requires lent { length room.old ≡ 262144 }
        requires rests { (p : ℕ) × (t : Pairs) × Rests p (medium_of (D.disk d.old)) t }
        ensures only { is_ok result ≡ false → (D.disk d.new).on ≡ false }
        ensures raises { (p : ℕ) (t : Pairs) → Rests p (medium_of (D.disk d.old)) t → MatchResult result (λ l. Stands p (medium_of (D.disk d.new)) room.new l t) (λ _. Cut p t (medium_of (D.disk d.new))) };

    // The ledger works on the queue. `pending` is how many writes the deals may still bring.
    fn toil<D: Pages>(
        l: &mut Ledger,
        d: &mut D,
        room: &mut [u64],
        counts: &[usize],
        pending: usize,
    ) -> Result<(), Gone>
        requires soon { 143 ≤ (D.disk d.old).left }
        requires stands { (p : ℕ) × (t : Pairs) × Stands p (medium_of (D.disk d.old)) room.old l.old t }
        requires counts { Counts counts.now }
        requires few { pending ≤ 32768 }
        ensures only { is_ok result ≡ false → (D.disk d.new).on ≡ false }
        ensures toils { (p : ℕ) (t : Pairs) → Stands p (medium_of (D.disk d.old)) room.old l.old t → MatchResult result (λ _. Toiled p (medium_of (D.disk d.old)) room.old l.old (medium_of (D.disk d.new)) room.new l.new counts.now pending t) (λ _. Cut p t (medium_of (D.disk d.new))) };

    // The word at k as the deal of clerk c sees it, whose lines are so many.
    fn look<D: Pages>(
        l: &mut Ledger,
        d: &mut D,
        room: &mut [u64],
        c: Clerk,
        count: usize,
        k: u64,
    ) -> Result<Option<u64>, Gone>
        requires soon { 17 ≤ (D.disk d.old).left }
        requires stands { (p : ℕ) × (t : Pairs) × Stands p (medium_of (D.disk d.old)) room.old l.old t }
        requires few { count ≤ 1024 }
        ensures only { is_ok result ≡ false → (D.disk d.new).on ≡ false }
        ensures left { is_ok result ≡ true → (D.disk d.old).left ≤ (D.disk d.new).left + 17 }
        ensures looks { (p : ℕ) (t : Pairs) → Stands p (medium_of (D.disk d.old)) room.old l.old t → MatchResult result (λ o. (o ≡ find k (with_lines t (deal_lines room.old c count))) × Looked p (medium_of (D.disk d.old)) room.old l.old (medium_of (D.disk d.new)) room.new l.new t) (λ _. Cut p t (medium_of (D.disk d.new))) };

    // The deal is made.
    fn commit<D: Pages>(
        f: &mut Office,
        d: &mut D,
        room: &mut [u64],
        pick: Pick,
    ) -> Result<Answer, Gone>
        requires soon { 512 ≤ (D.disk d.old).left }
        requires stands { (p : ℕ) × (es : List Event) × (s : State) × GoesOn p es f.old room.old (D.disk d.old) pick Asks.Commit s }
        ensures only { is_ok result ≡ false → (D.disk d.new).on ≡ false }
        ensures left { is_ok result ≡ true → (D.disk d.old).left ≤ (D.disk d.new).left + 369 }
        ensures commits { (p : ℕ) (es : List Event) (s : State) → GoesOn p es f.old room.old (D.disk d.old) pick Asks.Commit s → MatchResult result (λ a. Answered p es f.new room.new (D.disk d.new) (Some (pick.who, a))) (λ _. (e : Disk) → Back (D.disk d.new) e → Holds p es (λ s. Lasting p e s.book)) };

    // A put, a drop, and what isn't built yet.
    fn carry_on<D: Pages>(
        f: &mut Office,
        d: &mut D,
        room: &mut [u64],
        pick: Pick,
        o: Op,
    ) -> Result<Answer, Gone>
        requires soon { 512 ≤ (D.disk d.old).left }
        requires stands { (p : ℕ) × (es : List Event) × (s : State) × GoesOn p es f.old room.old (D.disk d.old) pick o s × T (not (ends o)) }
        ensures only { is_ok result ≡ false → (D.disk d.new).on ≡ false }
        ensures left { is_ok result ≡ true → (D.disk d.old).left ≤ (D.disk d.new).left + 369 }
        ensures tells { (p : ℕ) (es : List Event) (s : State) → GoesOn p es f.old room.old (D.disk d.old) pick o s → T (not (ends o)) → MatchResult result (λ a. Answered p es f.new room.new (D.disk d.new) (Some (pick.who, a))) (λ _. (e : Disk) → Back (D.disk d.new) e → Holds p es (λ s. Lasting p e s.book)) };
}

/// The office comes up: nobody has a deal.
pub fn open<A: Acts, D: Pages>(d: &mut D, room: &mut [u64]) -> Result<Office, Gone>
    requires soon { 4194304 ≤ (D.disk d.old).left }
    requires lent { length room.old ≡ 262144 }
    requires lasts { (p : ℕ) × (b : Book) × Lasting p (D.disk d.old) b }
    ensures only { is_ok result ≡ false → (D.disk d.new).on ≡ false }
    ensures opens { (p : ℕ) (b : Book) → Lasting p (D.disk d.old) b → MatchResult result (λ f. Sits p f room.new (D.disk d.new) (at_rest b)) (λ _. (e : Disk) → Back (D.disk d.new) e → Lasting p e b) }
{
    let ledger = A::raise(d, room)?;
    TablesMut::clear(room);
    Ok(Office {
        ledger,
        tally: Tally { writes: 0, puts: 0 },
    })
}

// Whom to serve. Nothing that is built must know the key that a Next would find.
fn choose(room: &[u64]) -> Option<Pick>
    requires { Sound room.now }
    ensures { (s : State) → TablesHold can true room.now s → Picked can s (order_of room.now) result }
{
    let tables = Tables::new(room);
    if let Some(pick) = tables.first_free(None) {
        return Some(pick);
    }
    tables.decide(&[None; CLERKS])
}

// As it's told.
fn word_told(found: Option<u64>) -> Answer
    ensures { result ≡ as_word found }
{
    match found {
        Some(x) => Answer::Word(x),
        None => Answer::Missing,
    }
}

// The one picked is turned away.
fn turn_away(room: &mut [u64], pick: Pick, why: Refusal) -> Answer
    requires stands { (p : ℕ) × (es : List Event) × (f : Engine) × (d : Disk) × (s : State) × Serving p es f room.old d pick s }
    ensures told { result ≡ No (number_of why) }
    ensures away { (p : ℕ) (es : List Event) (f : Engine) (d : Disk) (s : State) → Serving p es f room.old d pick s → (o : Asks) (a : Told) (k : ℕ) → Seated false p f room.new d (set_clerk pick.who (s.clerk pick.who).deal (Over o a k) s) }
{
    let mut tables = TablesMut { room };
    tables.turn_away(pick);
    why.into()
}

impl Office {
    /// It's asked. Nothing is asked of the disk.
    pub fn ask(&mut self, room: &mut [u64], who: u32, o: Op)
        requires one { who < 32 }
        requires stands { (p : ℕ) × (d : Disk) × (s : State) × Sits p self.old room.old d s × ((s.clerk who).now' ≡ Quiet) }
        ensures asked { (p : ℕ) (d : Disk) (s : State) → Sits p self.old room.old d s → (s.clerk who).now' ≡ Quiet → Sits p self.new room.new d (set_clerk who (s.clerk who).deal (Under o 0) s) }
    {
        let mut tables = TablesMut { room };
        tables.take_in(Clerk::new(who), o);
    }

    /// A turn, in which one clerk may be told something.
    pub fn turn<A: Acts, D: Pages>(
        &mut self,
        d: &mut D,
        room: &mut [u64],
    ) -> Result<Option<(u32, Answer)>, Gone>
        requires soon { 512 ≤ (D.disk d.old).left }
        requires stands { (p : ℕ) × (es : List Event) × Holds p es (Sits p self.old room.old (D.disk d.old)) }
        ensures only { is_ok result ≡ false → (D.disk d.new).on ≡ false }
        ensures turns { (p : ℕ) (es : List Event) → Holds p es (Sits p self.old room.old (D.disk d.old)) → MatchResult result (λ x. Went p es (Sits p self.new room.new (D.disk d.new)) x) (λ _. (e : Disk) → Back (D.disk d.new) e → Holds p es (λ s. Lasting p e s.book)) }
    {
        let told = self.answer::<A, D>(d, room)?;
        self.work::<A, D>(d, room)?;
        Ok(told)
    }

    // The first who counts is served.
    fn answer<A: Acts, D: Pages>(
        &mut self,
        d: &mut D,
        room: &mut [u64],
    ) -> Result<Option<(u32, Answer)>, Gone>
        requires soon { 512 ≤ (D.disk d.old).left }
        requires stands { (p : ℕ) × (es : List Event) × Holds p es (Sits p self.old room.old (D.disk d.old)) }
        ensures only { is_ok result ≡ false → (D.disk d.new).on ≡ false }
        ensures left { is_ok result ≡ true → (D.disk d.old).left ≤ (D.disk d.new).left + 369 }
        ensures answers { (p : ℕ) (es : List Event) → Holds p es (Sits p self.old room.old (D.disk d.old)) → MatchResult result (λ x. Answered p es self.new room.new (D.disk d.new) x) (λ _. (e : Disk) → Back (D.disk d.new) e → Holds p es (λ s. Lasting p e s.book)) }
    {
        let Some(pick) = choose(room) else {
            return Ok(None);
        };
        let who = pick.who;
        let told = self.serve::<A, D>(d, room, pick)?;
        Ok(Some((who.number(), told)))
    }

    // The one picked is undone, answered or turned away.
    fn serve<A: Acts, D: Pages>(
        &mut self,
        d: &mut D,
        room: &mut [u64],
        pick: Pick,
    ) -> Result<Answer, Gone>
        requires soon { 512 ≤ (D.disk d.old).left }
        requires stands { (p : ℕ) × (es : List Event) × (s : State) × Serving p es self.old room.old (D.disk d.old) pick s }
        ensures only { is_ok result ≡ false → (D.disk d.new).on ≡ false }
        ensures left { is_ok result ≡ true → (D.disk d.old).left ≤ (D.disk d.new).left + 369 }
        ensures serves { (p : ℕ) (es : List Event) (s : State) → Serving p es self.old room.old (D.disk d.old) pick s → MatchResult result (λ a. Answered p es self.new room.new (D.disk d.new) (Some (pick.who, a))) (λ _. (e : Disk) → Back (D.disk d.new) e → Holds p es (λ s. Lasting p e s.book)) }
    {
        if pick.clash {
            self.take_apart(room, pick);
            return Ok(Answer::Clash);
        }
        let o = Tables::new(room).read_op(pick.who);
        match Tables::new(room).refused(pick.who) {
            Some(Refusal::NotBuilt) => Ok(turn_away(room, pick, Refusal::NotBuilt)),
            Some(Refusal::TooLong) => Ok(turn_away(room, pick, Refusal::TooLong)),
            // It's told so within its deal.
            Some(Refusal::NoMark) => self.go_on::<A, D>(d, room, pick, o),
            None => self.go_on::<A, D>(d, room, pick, o),
        }
    }

    // What isn't turned away.
    fn go_on<A: Acts, D: Pages>(
        &mut self,
        d: &mut D,
        room: &mut [u64],
        pick: Pick,
        o: Op,
    ) -> Result<Answer, Gone>
        requires soon { 512 ≤ (D.disk d.old).left }
        requires stands { (p : ℕ) × (es : List Event) × (s : State) × GoesOn p es self.old room.old (D.disk d.old) pick o s }
        ensures only { is_ok result ≡ false → (D.disk d.new).on ≡ false }
        ensures left { is_ok result ≡ true → (D.disk d.old).left ≤ (D.disk d.new).left + 369 }
        ensures goes { (p : ℕ) (es : List Event) (s : State) → GoesOn p es self.old room.old (D.disk d.old) pick o s → MatchResult result (λ a. Answered p es self.new room.new (D.disk d.new) (Some (pick.who, a))) (λ _. (e : Disk) → Back (D.disk d.new) e → Holds p es (λ s. Lasting p e s.book)) }
    {
        match o {
            Op::Undo => {
                self.take_apart(room, pick);
                Ok(Answer::Done)
            }
            Op::Commit => A::commit(self, d, room, pick),
            _ => self.carry_out::<A, D>(d, room, pick, o),
        }
    }

    // It's told within its deal, or that the disk is full. What it must say: `tells`.
    fn carry_out<A: Acts, D: Pages>(
        &mut self,
        d: &mut D,
        room: &mut [u64],
        pick: Pick,
        o: Op,
    ) -> Result<Answer, Gone>
        requires soon { 512 ≤ (D.disk d.old).left }
        requires stands { (p : ℕ) × (es : List Event) × (s : State) × GoesOn p es self.old room.old (D.disk d.old) pick o s × T (not (ends o)) }
        ensures only { is_ok result ≡ false → (D.disk d.new).on ≡ false }
        ensures left { is_ok result ≡ true → (D.disk d.old).left ≤ (D.disk d.new).left + 369 }
        ensures tells { (p : ℕ) (es : List Event) (s : State) → GoesOn p es self.old room.old (D.disk d.old) pick o s → T (not (ends o)) → MatchResult result (λ a. Answered p es self.new room.new (D.disk d.new) (Some (pick.who, a))) (λ _. (e : Disk) → Back (D.disk d.new) e → Holds p es (λ s. Lasting p e s.book)) }
    {
        match o {
            Op::Get(k) => self.get::<A, D>(d, room, pick, k),
            _ => A::carry_on(self, d, room, pick, o),
        }
    }

    // It's told the word at k.
    fn get<A: Acts, D: Pages>(
        &mut self,
        d: &mut D,
        room: &mut [u64],
        pick: Pick,
        k: u64,
    ) -> Result<Answer, Gone>
        requires soon { 512 ≤ (D.disk d.old).left }
        requires stands { (p : ℕ) × (es : List Event) × (s : State) × GoesOn p es self.old room.old (D.disk d.old) pick (Asks.Get k) s }
        ensures only { is_ok result ≡ false → (D.disk d.new).on ≡ false }
        ensures left { is_ok result ≡ true → (D.disk d.old).left ≤ (D.disk d.new).left + 369 }
        ensures gets { (p : ℕ) (es : List Event) (s : State) → GoesOn p es self.old room.old (D.disk d.old) pick (Asks.Get k) s → MatchResult result (λ a. Answered p es self.new room.new (D.disk d.new) (Some (pick.who, a))) (λ _. (e : Disk) → Back (D.disk d.new) e → Holds p es (λ s. Lasting p e s.book)) }
    {
        let count = Tables::new(room).count(pick.who);
        let found = A::look(&mut self.ledger, d, room, pick.who, count, k)?;
        let answer = word_told(found);
        let said = Telling {
            op: Op::Get(k),
            answer,
            above: None,
        };
        let mut tables = TablesMut { room };
        tables.answer(pick, said);
        Ok(answer)
    }

    // The deal of the one picked is forgotten, and its writes with it.
    fn take_apart(&mut self, room: &mut [u64], pick: Pick)
        requires stands { (p : ℕ) × (es : List Event) × (d : Disk) × (s : State) × Serving p es self.old room.old d pick s }
        ensures apart { (p : ℕ) (es : List Event) (d : Disk) (s : State) → Serving p es self.old room.old d pick s → (o : Asks) (a : Told) (k : ℕ) → Seated false p self.new room.new d (set_clerk pick.who [] (Over o a k) s) }
    {
        let gone = Tables::new(room).tally(pick.who);
        self.tally.writes -= gone.writes;
        self.tally.puts -= gone.puts;
        let mut tables = TablesMut { room };
        tables.take_apart(pick);
    }

    // Records go into the tree, and a batch to the disk.
    fn work<A: Acts, D: Pages>(&mut self, d: &mut D, room: &mut [u64]) -> Result<(), Gone>
        requires soon { 143 ≤ (D.disk d.old).left }
        requires stands { (p : ℕ) × (es : List Event) × (x : Option (ℕ × Told)) × Answered p es self.old room.old (D.disk d.old) x }
        ensures only { is_ok result ≡ false → (D.disk d.new).on ≡ false }
        ensures works { (p : ℕ) (es : List Event) (x : Option (ℕ × Told)) → Answered p es self.old room.old (D.disk d.old) x → MatchResult result (λ _. Worked p es self.new room.new (D.disk d.new) x) (λ _. (e : Disk) → Back (D.disk d.new) e → Holds p es (λ s. Lasting p e s.book)) }
    {
        let counts = Tables::new(room).counts();
        A::toil(&mut self.ledger, d, room, &counts, self.tally.writes)?;
        Ok(())
    }
}
