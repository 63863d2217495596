// Plays long rows of puts, drops, gets and nexts on a tree in memory, against a list that holds, by key, the word and one more, or 0.
#![tactic(auto)]

ghost use Rattle.std.specs.Prelude.{◌≡◌, ℕ, ◌+◌, ◌-◌, ◌*◌, ◌<◌, ◌≤◌, length, IfSome};
ghost use Rattle.treeplay.specs.Played.{Ready, keys};

use pagemem::{MemTree, set_up};
use pages::PAGE_WORDS;
use std::alloc::Global;
use std::io;

const PAGES: usize = 1200;

const KEYS: usize = 60000;

const WORDS: u64 = 1000000;
// In rows from end to end every so many-th key is looked up too: the list is slow at that.
const LOOK_EACH: usize = 8;

// Turns of a row at random keys.
const TURNS: usize = 50000;

// The order in which a row takes the keys.
#[derive(Clone, Copy, Debug, PartialEq, Eq)]
enum Order {
    Rising,
    Falling,
}

// What a row does at each key.
#[derive(Clone, Copy, Debug, PartialEq, Eq)]
enum Act {
    Put,
    Drop,
}

// A row of the play: turns at random keys, of which about a share of a hundred are puts, or one act at each key.
#[derive(Clone, Copy, Debug, PartialEq, Eq)]
enum Row {
    AtRandom(u64),
    EachKey(Act, Order),
}

// The rows, in turn, with what is told of each.
const ROWS: [(&str, Row); 10] = [
    ("at random", Row::AtRandom(95)),
    ("at random", Row::AtRandom(50)),
    ("at random", Row::AtRandom(10)),
    ("at random", Row::AtRandom(80)),
    (
        "dropped from the back",
        Row::EachKey(Act::Drop, Order::Falling),
    ),
    ("put rising", Row::EachKey(Act::Put, Order::Rising)),
    (
        "dropped from the front",
        Row::EachKey(Act::Drop, Order::Rising),
    ),
    ("put falling", Row::EachKey(Act::Put, Order::Falling)),
    ("thinned", Row::AtRandom(5)),
    (
        "dropped from the back",
        Row::EachKey(Act::Drop, Order::Falling),
    ),
];

// The first pair of the list with a key above k.
fn pair_after(model: &[u64], k: usize) -> Option<(u64, u64)>
    requires { k < length model.now }
{
    let rest = &model[k + 1..];
    let i = rest.iter().position(|x| *x != 0)?;
    Some(((k + 1 + i) as u64, rest[i] - 1))
}

// How many nodes the tree has at most, by its pairs: n / 84 + 1.
fn nodes_at_most(n: usize) -> usize {
    n / 84 + 1
}

// The tree, the list, and whether all that the tree told so far agrees with the list. That they are ready stands in the clauses, as it does for the tree that is lent here.
// So does that k is a key: it is a place in the list.
#[derive(Drop)]
struct Game<'a, 'b, 'c> {
    tree: MemTree<'a, 'b>,
    model: &'c mut [u64],
    // what the game has found so far: a result, and no flag for another field
    fine: bool,
}

impl<'a, 'b, 'c> Game<'a, 'b, 'c> {
    // Puts a word at key k of the tree and of the list.
    fn put(&mut self, k: usize, x: u64)
        requires ready { Ready self.old }
        requires key { k < keys }
        requires word { x < 1000000 }
        ensures { Ready self.new }
    {
        let new = self.tree.put(k as u64, x);
        self.fine = self.fine && new == Some(self.model[k] == 0);
        if new.is_some() {
            self.model[k] = x + 1;
        }
    }

    // Drops key k of the tree and of the list.
    fn drop(&mut self, k: usize)
        requires ready { Ready self.old }
        requires key { k < keys }
        ensures { Ready self.new }
    {
        let was = self.tree.drop(k as u64);
        self.fine = self.fine && was == (self.model[k] != 0);
        self.model[k] = 0;
    }

    // Sees whether get and next at k tell what the list has.
    fn look(&mut self, k: usize)
        requires ready { Ready self.old }
        requires key { k < keys }
        ensures { Ready self.new }
    {
        let word = self.tree.get(k as u64);
        let pair = self.tree.next(k as u64);
        let model = &mut *self.model;
        let here = word.map_or(0, |x| x.wrapping_add(1)) == model[k];
        let there = pair == pair_after(model, k);
        self.fine = self.fine && here && there;
    }

    // Turns at random keys, of which about share of a hundred are puts.
    fn at_random(&mut self, share: u64)
        requires { Ready self.old }
        ensures { Ready self.new }
    {
        let mut seed = share;
        for _ in 0..TURNS {
            seed = seed
                .wrapping_mul(6364136223846793005)
                .wrapping_add(1442695040888963407);
            let k = (seed >> 33) as usize % KEYS;
            if (seed >> 13) % 100 < share {
                self.put(k, (seed >> 20) % WORDS);
            } else {
                self.drop(k);
            }
            self.look(k);
        }
    }

    // Puts or drops every key, from the front or from the back.
    fn each_key(&mut self, act: Act, order: Order)
        requires { Ready self.old }
        ensures { Ready self.new }
    {
        // The turn is no index: it gives the key and the word.
        for i in 0..KEYS {
            let k = match order {
                Order::Rising => i,
                Order::Falling => KEYS - 1 - i,
            };
            match act {
                Act::Put => self.put(k, i as u64 % WORDS),
                Act::Drop => self.drop(k),
            }
            if k % LOOK_EACH == 0 {
                self.look(k);
            }
        }
    }

    fn row(&mut self, row: Row)
        requires { Ready self.old }
        ensures { Ready self.new }
    {
        match row {
            Row::AtRandom(share) => self.at_random(share),
            Row::EachKey(act, order) => self.each_key(act, order),
        }
    }

    fn tell(&self, rt: &HostRuntime, what: &str) -> io::Result<()>
        requires { Ready self.now }
    {
        let pairs = self.model.iter().filter(|x| **x != 0).count();
        let used = (PAGES as u64).saturating_sub(self.tree.free_pages());
        println!(rt;
            "{what}: {pairs} pairs, height {}, {used} pages, occupancy kept {}, agrees {}",
            self.tree.root().height,
            used <= nodes_at_most(pairs) as u64,
            self.fine
        )
    }
}

fn main(rt: HostRuntime) -> io::Result<()> {
    let alloc = Global::new(rt.memory());
    let mut marks = vec![in alloc; 0; PAGES + 1]?;
    let mut words = vec![in alloc; 0; PAGES * PAGE_WORDS]?;
    let mut model = vec![in alloc; 0; KEYS]?;
    let root = set_up(marks.as_mut_slice(), words.as_slice());
    let tree = MemTree::open(marks.as_mut_slice(), words.as_mut_slice(), root);
    let mut game = Game {
        tree,
        model: model.as_mut_slice(),
        fine: true,
    };
    for (what, row) in ROWS {
        game.row(row);
        game.tell(&rt, what)?;
    }
    Ok(())
}
