//! What the definitions of judging come to, in words of positions. Each function's contract is the theorem.
ghost use Rattle.journal.specs.Positions.{EarlierTold, OneRun, FirstEpoch};

/// What "no committed message before it has its client and job" means, position by position.
pub fn earlier_is_told()
    ensures { EarlierTold }
{}

/// The cells after each front of the log are one run of its committed statements in log order, from zeros in epoch 1.
pub fn cells_are_one_run()
    ensures cells { OneRun }
    ensures epoch { FirstEpoch }
{}
