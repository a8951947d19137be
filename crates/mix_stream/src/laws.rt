//! What follows of the words that contracts cite.
ghost use Rattle.mix_stream.specs.Laws.{AreNotDamage, ComeByRank, ComeInOrder};

/// Where packets stand by rank, nothing is left of the senders below the one whose row comes next.
pub fn rows_come_by_rank()
    ensures { ComeByRank }
{}

/// Where the bytes of a sender are rows and the disk tells, a reader gives the first of them, and the others are left.
pub fn rows_come_in_order()
    ensures { ComeInOrder }
{}

/// Where the bytes of each sender are rows, none is damaged.
pub fn rows_are_not_damage()
    ensures { AreNotDamage }
{}
