// Where the two tables of lines stand in the room, and how long they are.
ghost use Rattle.std.specs.Prelude.{◌≡◌};
ghost use Rattle.lines.specs.Tables.{deal_ring};

use crate::ring::Ring;
use clerk::CLERKS;

/// Deals that can be open at a time, one for each clerk, and the lines that each can have.
pub const DEALS: usize = CLERKS;

pub const DEAL_LINES: usize = 1024;
/// A deal's lines in words. The deal c stands at c times this.
pub const DEAL_WORDS: usize = 3072;

/// The queue stands behind the deals, up to the tables' end.
pub const QUEUE_LINES: usize = 32768;

pub const QUEUE_AT: usize = 98304;

pub const TABLES_END: usize = 196608;

/// The words of the whole room.
pub const ROOM_WORDS: usize = 262144;

/// The first lines of a deal, as a ring in its own table.
pub fn deal_ring(count: usize) -> Ring
    ensures { result ≡ deal_ring count }
{
    Ring {
        cap: DEAL_LINES,
        start: 0,
        count,
    }
}
