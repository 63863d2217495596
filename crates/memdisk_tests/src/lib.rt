// Trials of the disk in memory.
#![tactic(auto)]

ghost use Rattle.std.specs.Prelude.{◌≡◌, ◌≤◌, ◌↔◌, [], ◌∷◌, IsErrOf, OnOk, IfOk, replicate, slice_index};
ghost use Rattle.deals.specs.Disk.{at, Within};

use deals::{Gone, Power};
use pages::PAGE_WORDS;

/// Why a page isn't served.
#[derive(Clone, Copy, Debug, PartialEq, Eq)]
pub enum Unserved {
    NoSuchPage,
    PowerGone,
}

impl From<Gone> for Unserved {
    ghost use Rattle.std.specs.Prelude.{◌≡◌};
    ghost use Rattle.memdisk_tests.specs.declared.Unserved.{Unserved};

    ghost from_gives = { λ _ e. e ≡ Unserved.PowerGone };

    fn from(_gone: Gone) -> Unserved {
        Unserved::PowerGone
    }
}

/// Fills page p with x.
pub fn put<D: Power>(d: &mut D, p: u64, x: u64) -> Result<(), Unserved>
    ensures absent { IsErrOf result Unserved.NoSuchPage ↔ ((D.disk d.old).pages ≤ p) }
    ensures shows { OnOk result ((D.disk d.new).shown ≡ at p (replicate 512 x) (D.disk d.old).shown) }
{
    if p >= d.pages() {
        return Err(Unserved::NoSuchPage);
    }
    d.allow(1);
    d.write(p, &[x; PAGE_WORDS])?;
    Ok(())
}

/// The first word of page p.
pub fn get<D: Power>(d: &mut D, p: u64) -> Result<u64, Unserved>
    ensures absent { IsErrOf result Unserved.NoSuchPage ↔ ((D.disk d.old).pages ≤ p) }
    ensures shown { IfOk result (λ x. x ≡ slice_index ((D.disk d.old).shown p) 0) }
    ensures same { (D.disk d.new).shown ≡ (D.disk d.old).shown }
{
    if p >= d.pages() {
        return Err(Unserved::NoSuchPage);
    }
    let mut page = [0; PAGE_WORDS];
    d.allow(1);
    d.read(p, &mut page)?;
    Ok(page[0])
}

/// What is shown now lasts: a cut leaves of each page just that.
pub fn flush<D: Power>(d: &mut D) -> Result<(), Unserved>
    ensures same { (D.disk d.new).shown ≡ (D.disk d.old).shown }
    ensures lasts { OnOk result (Within (D.disk d.new).may (λ p. (D.disk d.old).shown p ∷ [])) }
{
    d.allow(1);
    d.sync()?;
    Ok(())
}

#[cfg(test)]
mod tests {
    use super::*;
    use deals::Pages;
    use memdisk::{Due, Entry, MemDisk, NoRoom};
    use std::process::Abort;
    use std::test::Fail;

    // What is lent to a disk of two pages, on which two cuts can be set.
    #[derive(Drop)]
    struct Slots<const SAVED: usize> {
        shown: [u64; 1024],
        saved: [Entry; SAVED],
        cuts: [Due; 2],
    }

    impl<const SAVED: usize> Slots<SAVED> {
        fn new() -> Slots<SAVED> {
            Slots {
                shown: [0; 1024],
                saved: [Entry::BLANK; SAVED],
                cuts: [Due::BLANK; 2],
            }
        }

        fn disk(&mut self) -> MemDisk<'_> {
            let Slots { shown, saved, cuts } = self;
            MemDisk::new(shown, saved, cuts)
        }
    }

    fn back(rt: &impl Abort, d: &mut MemDisk) {
        assert!(rt; !d.is_on());
        let mut room = [0; 8];
        d.back(&mut room);
        assert!(rt; d.is_on());
    }

    // For each choice the trial shows old or new, and each of them for some.
    fn each_for_some<F: Fn(u64) -> Result<u64, Fail>>(
        rt: &impl Abort,
        old: u64,
        new: u64,
        trial: F,
    ) -> Result<(), Fail>
        requires { F.IsAlwaysCallable trial }
    {
        let (mut was_old, mut was_new) = (false, false);
        // A choice is a number, and no index.
        for choice in 0..16 {
            let x = trial(choice)?;
            assert!(rt; x == old || x == new);
            was_old = was_old || x == old;
            was_new = was_new || x == new;
        }
        assert!(rt; was_old && was_new);
        Ok(())
    }

    // Old is written and lasts, new is written, and the power goes and comes back.
    #[test]
    fn old_or_new(rt: HostRuntime) -> Result<(), Fail> {
        each_for_some(&rt, 1, 2, |choice| {
            let mut slots = Slots::<4>::new();
            let mut d = slots.disk();
            put(&mut d, 0, 1)?;
            flush(&mut d)?;
            put(&mut d, 0, 2)?;
            d.set_cut(0, choice)?;
            assert_eq!(&rt; get(&mut d, 0), Err(Unserved::PowerGone));
            back(&rt, &mut d);
            Ok(get(&mut d, 0)?)
        })
    }

    // The bytes of a write that a cut meets may be left, and so may what was shown.
    #[test]
    fn cut_write(rt: HostRuntime) -> Result<(), Fail> {
        each_for_some(&rt, 0, 5, |choice| {
            let mut slots = Slots::<4>::new();
            let mut d = slots.disk();
            d.set_cut(1, choice)?;
            assert_eq!(&rt; put(&mut d, 1, 5), Err(Unserved::PowerGone));
            back(&rt, &mut d);
            Ok(get(&mut d, 1)?)
        })
    }

    // Each cut counts from when it was set, and not while the power is off.
    #[test]
    fn several_cuts(rt: HostRuntime) -> Result<(), Fail> {
        let mut slots = Slots::<4>::new();
        let mut d = slots.disk();
        d.set_cut(3, 7)?;
        d.set_cut(2, 8)?;
        assert_eq!(rt; d.set_cut(1, 9), Err(NoRoom));
        assert_eq!(rt; get(&mut d, 0), Ok(0));
        assert_eq!(rt; get(&mut d, 0), Err(Unserved::PowerGone));
        assert_eq!(rt; d.pending(), 1);
        assert_eq!(rt; get(&mut d, 0), Err(Unserved::PowerGone));
        back(&rt, &mut d);
        assert_eq!(rt; get(&mut d, 0), Err(Unserved::PowerGone));
        assert_eq!(rt; d.pending(), 0);
        Ok(())
    }

    // A table of one entry is emptied by the second write: the first is then the oldest that may be left.
    #[test]
    fn full_table(rt: HostRuntime) -> Result<(), Fail> {
        // A choice is a number, and no index.
        for choice in 0..8 {
            let mut slots = Slots::<1>::new();
            let mut d = slots.disk();
            put(&mut d, 0, 1)?;
            put(&mut d, 0, 2)?;
            d.set_cut(0, choice)?;
            back(&rt, &mut d);
            let x = get(&mut d, 0)?;
            assert!(rt; x == 1 || x == 2);
        }
        Ok(())
    }
}
