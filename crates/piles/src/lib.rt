// That every code keeps the code meaning, layers piled on it to any height included.

#![tactic(auto)]

ghost use Rattle.piles.specs.Keeping.{CodesKeep};

// The theorem on the codes: when each is fit, and with which distance it keeps the code meaning.
pub fn codes_keep()
    ensures { CodesKeep }
{}
