// Theorems as contracts: a call of the function is a proof of what it ensures.
ghost use Rattle.order.specs.Worked.{Worked};

// The moves, bytes and refusals of the worked calls.
pub fn worked_calls()
    ensures { Worked }
{}
