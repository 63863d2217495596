// The book as pairs, and what a deal is told as what it sees.
ghost use Rattle.deals.specs.Paired.{PutIs, DropIs, FindIs, NextIs, OntoIs};
ghost use Rattle.deals.specs.Told.{GetTold, DropTold, NextTold, LeavesTold};
ghost use Rattle.deals.specs.Queued.{GetQueued, DropQueued, NextQueued, LeavesQueued};

/// Each is a law between the statements' book and pairs with rising keys.
pub fn book_is_pairs() -> u8
    ensures put { PutIs }
    ensures drop { DropIs }
    ensures find { FindIs }
    ensures next { NextIs }
    ensures onto { OntoIs }
{
    0
}

/// What the statements tell a deal is what is found in the tree's pairs after the queue's writes and the deal's own. The first four say it
/// of any pairs with rising keys that the queue has made, and the others of the tree's, whose keys alone are taken to rise.
pub fn deal_sees() -> u8
    ensures get { GetTold }
    ensures drop { DropTold }
    ensures next { NextTold }
    ensures leaves { LeavesTold }
    ensures get_queued { GetQueued }
    ensures drop_queued { DropQueued }
    ensures next_queued { NextQueued }
    ensures leaves_queued { LeavesQueued }
{
    0
}
