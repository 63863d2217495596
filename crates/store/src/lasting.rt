// What lasts: by a sync, and by a head that is written.
ghost use Rattle.std.specs.Prelude.{◌≡◌, ◌<◌, ◌≤◌, not, ◌&&◌, ◌||◌, is_ok};
ghost use Rattle.store.specs.Head.{Head, Sound};
ghost use Rattle.store.specs.State.{Kept, Firm};
ghost use Rattle.store.specs.Store.{next, next_of, Ready, Intact, Settles, Moves, Seals};

use crate::part::{Part, next_page};
use crate::{Device, Gone, Store};

/// That a seal has lasted. It can't be copied or let go: whoever asks for one has it spent.
pub struct Lasted {
    pub(crate) sealed: (),
}

impl Lasted {
    /// The one way to let go of it.
    pub fn spend(self) {
        let Lasted { sealed: () } = self;
    }
}

// The moment: from here on the disk means what the next head says.
pub(crate) fn write_head<D: Device>(d: &mut D, part: &Part) -> Result<(), Gone>
    requires kept { Kept (D.medium d.old) }
    requires sound { Sound (D.medium d.old).pages (next part.now) }
    requires firm { Firm (D.medium d.old) (next part.now) }
    requires asks { 2 ≤ (D.medium d.old).left }
    ensures moves { Moves (D.medium d.old) (next_of part.now) (is_ok result) (D.medium d.new) }
    ensures tied { D.tie d.new ≡ D.tie d.old }
{
    d.write(0, next_page(part))?;
    d.sync()
}

impl Store {
    // Whether a head that counts on fresh pages, or on the images too, needs a sync first.
    fn must_sync(&self, images: bool) -> bool
        ensures { result ≡ (self.now.fresh || (images && not self.now.lasted)) }
    {
        self.fresh || (images && !self.lasted)
    }

    // What the next head counts on lasts; with `images`, those too. It's a question with two answers and no choice of a step.
    pub(crate) fn make_last<D: Device>(&mut self, d: &mut D, images: bool) -> Result<(), Gone>
        requires asks { 0 < (D.medium d.old).left }
        ensures settles { (g : Head) → Ready (D.medium d.old) g self.old.fresh → Settles (D.medium d.old) g self.old images (is_ok result) (D.medium d.new) self.new }
        ensures tied { D.tie d.new ≡ D.tie d.old }
    {
        if !self.must_sync(images) {
            return Ok(());
        }
        d.sync()?;
        self.fresh = false;
        self.lasted = true;
        Ok(())
    }

    /// The appended records last.
    pub fn seal<D: Device>(&mut self, d: &mut D, part: &Part) -> Result<Lasted, Gone>
        requires intact { Intact (D.medium d.old) part.now self.old }
        requires asks { 3 ≤ (D.medium d.old).left }
        ensures seals { Seals (D.medium d.old) part.now self.old (is_ok result) (D.medium d.new) self.new }
        ensures tied { D.tie d.new ≡ D.tie d.old }
    {
        self.make_last(d, false)?;
        write_head(d, part)?;
        self.lasted = true;
        Ok(Lasted { sealed: () })
    }
}
