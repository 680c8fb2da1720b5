// Theorems as contracts: a call of the function is a proof of what it ensures.
ghost use Rattle.least.specs.Theorems.{NoFewer};

// No list of moves that places a call's arguments has fewer than N + C + M.
pub fn no_rival_is_shorter()
    ensures { NoFewer }
{}
