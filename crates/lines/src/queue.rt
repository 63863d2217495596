// The queue of committed writes, in the room. As in `own`, each function is one of the ring's, over a part of the room;
// the two differ in that part, and in what they say of the rest of the room.
ghost use Rattle.std.specs.Prelude.{◌≡◌, ◌+◌, ◌<◌, [], ◌∷◌, ◌++◌, slice_set};
ghost use Rattle.lines.specs.Changes.{ChangesTo};
ghost use Rattle.lines.specs.Tables.{queue_lines, QueueIn, OnlyQueue};

use crate::line::Line;
use crate::ring::{Lines, Ring};
use crate::tables::{QUEUE_AT, TABLES_END};

/// The records of the queue.
pub fn records_of<'a>(room: &'a [u64], queue: Ring) -> Lines<'a>
    requires { QueueIn room.now queue }
    ensures { result ≡ queue_lines room.now queue }
{
    queue.lines(&room[QUEUE_AT..TABLES_END])
}

/// One more record at the queue's end.
pub fn add_record(room: &mut [u64], queue: Ring, line: Line) -> Ring
    requires { (QueueIn room.old queue) × (queue.count < 32768) }
    ensures lines { queue_lines room.new result ≡ queue_lines room.old queue ++ line ∷ [] }
    ensures queue { (QueueIn room.new result) × ((result.start ≡ queue.start) × (result.count ≡ queue.count + 1)) }
    ensures only { OnlyQueue room.old room.new }
{
    queue.push(&mut room[QUEUE_AT..TABLES_END], line)
}

/// Writes the record i of the queue, and no other.
pub fn set_record(room: &mut [u64], queue: Ring, i: usize, line: Line)
    requires { (QueueIn room.old queue) × (i < queue.count) }
    ensures lines { queue_lines room.new queue ≡ slice_set (queue_lines room.old queue) i line }
    ensures queue { QueueIn room.new queue }
    ensures only { OnlyQueue room.old room.new }
{
    queue.set(&mut room[QUEUE_AT..TABLES_END], i, line);
}

/// Each record becomes what `change` makes of it, from the first on.
pub fn change_records<F: FnMut(Line) -> Line>(room: &mut [u64], queue: Ring, change: F)
    requires room { QueueIn room.old queue }
    requires callable { F.IsAlwaysCallable change }
    ensures lines { ChangesTo F.step change (queue_lines room.old queue) (queue_lines room.new queue) }
    ensures only { OnlyQueue room.old room.new }
{
    queue.change_all(&mut room[QUEUE_AT..TABLES_END], change);
}

/// The first record of a queue that has one, and the queue without it. No word is written.
pub fn front_of(room: &[u64], queue: Ring) -> (Line, Ring)
    requires { (QueueIn room.now queue) × (0 < queue.count) }
    ensures lines { queue_lines room.now queue ≡ result.0 ∷ queue_lines room.now result.1 }
    ensures queue { (QueueIn room.now result.1) × (result.1.count + 1 ≡ queue.count) }
{
    queue.pop_front(&room[QUEUE_AT..TABLES_END])
}
