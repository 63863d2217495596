// What holds of lines, queue and tree, whatever they are. Each function only stands for its law.
ghost use Rattle.view.specs.Laws.{ViewIs, FrontGoes, DealJoins, PutIs, DropIs, StaysRising, UpkeepWrites, UpkeepIsRight, MoreIsRight, BackIsRight};

/// Own lines, then the queue, then the tree: that is what is found in the pairs after the queue's writes and the deal's.
pub fn view_is() -> bool
    ensures { ViewIs }
{
    true
}

/// Lines are done one after the other, and a deal's writes may stand at the queue's end.
pub fn lines_join() -> bool
    ensures { (FrontGoes) × ((DealJoins) × (StaysRising)) }
{
    true
}

/// A line more is one write more.
pub fn lines_write() -> bool
    ensures { (PutIs) × (DropIs) }
{
    true
}

/// What is kept above a dropped key is right after each change of the tree.
pub fn upkeep_is_right() -> bool
    ensures { (UpkeepWrites) × (UpkeepIsRight) }
{
    true
}

/// And after each line more, and after the way back to a mark.
pub fn lines_stay_right() -> bool
    ensures { (MoreIsRight) × (BackIsRight) }
{
    true
}
