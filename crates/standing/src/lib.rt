// The laws of the log: what it knows is what its live bytes tell, whatever is called and wherever the power fails.
#![tactic(auto)]

ghost use Rattle.standing.specs.Laws.{NewIsSound, CallsKeepSound, SoundTells, SoundOpens};

pub fn laws_of_the_log()
    ensures made { NewIsSound }
    ensures kept { CallsKeepSound }
    ensures tells { SoundTells }
    ensures opens { SoundOpens }
{}
