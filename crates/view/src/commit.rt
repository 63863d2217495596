// A deal that is made: all that it writes goes to the end of the queue.
ghost use Rattle.std.specs.Prelude.{◌≡◌, ℕ, ◌+◌, ◌≤◌, List, ◌++◌, length};
ghost use Rattle.lines.specs.Tables.{queue_lines, QueueIn, OnlyQueue};
ghost use Rattle.view.specs.Adds.{is_write, writing};
ghost use Rattle.view.specs.Room.{Stands, own_of, queue_of};
ghost use Rattle.view.specs.Upkeep.{SuccOk};
ghost use Rattle.view.specs.Writes.{with_lines};

use crate::seen::View;
use lines::line::Line;
use lines::own::lines_of;
use lines::queue::add_record;
use lines::ring::Ring;

fn is_write(line: Line) -> bool
    ensures { result ≡ is_write line }
{
    matches!(line, Line::Wrote(..) | Line::Cleared(..))
}

/// Gives the longer queue, which then does to any tree what the deal did.
pub fn take_in(room: &mut [u64], view: View) -> Ring
    requires stands { Stands room.old view }
    requires fits { view.queue.count + length (writing (own_of room.old view)) ≤ 32768 }
    ensures lines { queue_lines room.new result ≡ queue_of room.old view ++ writing (own_of room.old view) }
    ensures queue { (QueueIn room.new result) × ((result.start ≡ view.queue.start) × (result.count ≡ view.queue.count + length (writing (own_of room.old view)))) }
    ensures only { OnlyQueue room.old room.new }
    ensures pairs { (t : List (ℕ × ℕ)) → with_lines t (queue_lines room.new result) ≡ with_lines (with_lines t (queue_of room.old view)) (own_of room.old view) }
    ensures succs { (t : List (ℕ × ℕ)) → SuccOk t (queue_of room.old view) → SuccOk t (own_of room.old view) → SuccOk t (queue_lines room.new result) }
{
    let mut queue = view.queue;
    // The records go into the room that the lines are read from, so no iterator can hold it meanwhile, and there is no
    // other memory to read them into.
    for i in 0..view.count {
        let line = lines_of(room, view.deal, view.count).at(i);
        if is_write(line) {
            queue = add_record(room, queue, line);
        }
    }
    queue
}
